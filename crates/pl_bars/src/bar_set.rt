//! A set of columns and sessions, by which a second bar is found.

ghost use Rattle.std.specs.Prelude.{◌≡◌, ℕ, ◌+◌, ◌*◌, ◌<◌, ◌≤◌, ◌==◌, ◌&&◌, ◌||◌, [], length, IfOk, vec_len};
ghost use Rattle.pl_spec.specs.Limits.{most_sessions};
ghost use Rattle.pl_spec.specs.Limits.{most_assets};

use std::alloc::{AllocError, Global};

// The columns and sessions that have a bar: a bit for each, column by column.
#[derive(Drop)]
pub(crate) struct BarSet {
    cols: usize,
    sessions: usize,
    words: Vec<u64>,
    ghost few_cols: { cols ≤ most_assets },
    ghost few_sessions: { sessions ≤ most_sessions },
    ghost room: { cols * sessions ≤ 64 * vec_len words },
}

impl BarSet {
    ghost use Rattle.pl_bars.specs.BarSet.{has_bar, AreBarsIn};

    // No bars, of so many columns and sessions.
    pub(crate) fn new(alloc: Global, cols: usize, sessions: usize) -> Result<BarSet, AllocError>
        requires cols { cols ≤ most_assets }
        requires sessions { sessions ≤ most_sessions }
        ensures { IfOk result (λ set. AreBarsIn set cols sessions []) }
    {
        let words = vec![in alloc; 0; cols * sessions / 64 + 1]?;
        Ok(BarSet {
            cols,
            sessions,
            words,
        })
    }

    // Whether there is a bar of the column on the session.
    pub(crate) fn contains(&self, col: usize, session: usize) -> bool
        requires col { col < self.now.cols }
        requires session { session < self.now.sessions }
        ensures { result ≡ has_bar self.now col session }
    {
        let place = col * self.sessions + session;
        (self.words[place / 64] >> (place % 64)) & 1 == 1
    }

    // From now on there is a bar of the column on the session.
    pub(crate) fn insert(&mut self, col: usize, session: usize)
        requires col { col < self.old.cols }
        requires session { session < self.old.sessions }
        ensures cols { self.new.cols ≡ self.old.cols }
        ensures sessions { self.new.sessions ≡ self.old.sessions }
        ensures bars { (c s : ℕ) → s < self.old.sessions
            → has_bar self.new c s ≡ (has_bar self.old c s || (col == c && session == s)) }
    {
        let place = col * self.sessions + session;
        self.words[place / 64] |= 1 << (place % 64);
    }
}
