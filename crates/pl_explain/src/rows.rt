//! Rows of cross-sections, each computed once.

ghost use Rattle.std.specs.Prelude.{◌≡◌, ◌==◌, ◌&&◌, ℕ, None, Some, OnOk, option_map, if◌then◌else◌};
ghost use Rattle.pl_explain.specs.Looking.{row_at, row_key};

use pl_fixed::Memory;
use std::alloc::Global;
use std::collections::HashMap;

/// Rows of cells, one for each asset by ascending sid, found by the number of a term and a session, which is
/// counted from 0.
#[derive(Drop)]
pub(crate) struct Rows {
    rows: HashMap<u64, Vec<i64>>,
}

fn key(term: u8, session: u32) -> u64
    ensures { row_key term session ≡ Some result }
{
    ((term as u64) << 32) + session as u64
}

impl Rows {
    /// No row is there.
    #[tactic(auto, unfolding(crate::specs::Looking::row_at))]
    pub(crate) fn new(alloc: Global) -> Rows
        ensures { (t d : ℕ) → row_at result t d ≡ None }
    {
        Rows {
            rows: HashMap::new(alloc),
        }
    }

    /// Lends the row of a term on a session; `None` where none was put there.
    #[tactic(auto, unfolding(crate::specs::Looking::row_at))]
    pub(crate) fn row(&self, term: u8, session: u32) -> Option<&[i64]>
        ensures { option_map (λ r. r.now) result ≡ row_at self.now term session }
    {
        match self.rows.get(&key(term, session)) {
            Some(row) => Some(row.as_slice()),
            None => None,
        }
    }

    /// Puts the row of a term on a session there, in place of one that is there already. The only error is
    /// want of memory.
    pub(crate) fn keep(&mut self, term: u8, session: u32, row: Vec<i64>) -> Result<(), Memory>
        ensures { OnOk result ((t d : ℕ) → row_at self.new t d
            ≡ (if term == t && session == d then Some row.items else row_at self.old t d)) }
    {
        self.rows.insert(key(term, session), row)?;
        Ok(())
    }
}
