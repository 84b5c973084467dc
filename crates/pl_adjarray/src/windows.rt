//! A traversal: windows over a buffer of bars, session after session.

ghost use Rattle.std.specs.Prelude.{◌≡◌, ◌+◌, ◌<◌, ◌≤◌, ◌↔◌, ℕ, false, pos, length, take, drop, All, IsTrue};
ghost use Rattle.pl_spec.specs.Rounding.{IsCell};
ghost use Rattle.pl_spec.specs.Window.{bar_window};
ghost use Rattle.pl_spec.specs.Limits.{saturated};
ghost use Rattle.pl_adjarray.specs.Buffered.{applied_at, col_at, world_of};
ghost use Rattle.pl_adjarray.specs.Stillness.{IsQuiet, IsStill};
ghost use Rattle.pl_adjarray.specs.Traversals.{advances};
ghost use Rattle.pl_adjarray.specs.Worlds.{IsWindow};

use crate::array::AdjustedArray;
use crate::sliding::follow;
use crate::stillness::still_from;
use pl_fixed::Steps;
use std::marker::Model;
use std::sync::ledger::Ledger;

/// A traversal: windows over a buffer of bars, session after session. Contracts see the array, the
/// windows' length and the session that it has come to.
#[derive(Drop)]
pub struct Windows<'s> {
    pub(crate) array: &'s AdjustedArray<'s>,
    pub(crate) scratch: &'s mut [i64],
    pub(crate) window: usize,
    pub(crate) session: usize,
    pub(crate) applied: u64,
}

impl<'s> Model for Windows<'s> {
    ghost use Rattle.pl_adjarray.specs.Traversals.{Traversal, traversal_of, IsInside};

    ghost Value = { Traversal };

    ghost view = { traversal_of };

    ghost invariant = { IsInside };
}

impl<'s> Windows<'s> {
    /// Goes to the first session with a whole window, and then to the next one each time, up to the
    /// one after the last row. Each adjustment that became effective since the session before
    /// changes every buffered row of its asset that is older: each time is one step. `false` after
    /// the last session, where nothing changes. No window can be held across it.
    pub fn advance<L: Ledger>(&mut self, steps: &mut Steps<L>) -> bool
        ensures array { self.new.array ≡ self.old.array }
        ensures window { self.new.window ≡ self.old.window }
        ensures made { IsTrue result → advances self.new ≡ advances self.old + 1 }
        // The session is the first with a whole window plus the number of the earlier advances.
        ensures session { IsTrue result → self.new.session
            ≡ self.old.array.first + self.old.window + advances self.old }
        ensures rises { IsTrue result → self.old.session < self.new.session }
        ensures within { self.new.session ≤ self.old.array.first + self.old.array.rows }
        ensures goes { advances self.old + self.old.window ≤ self.old.array.rows → IsTrue result }
        ensures end { (result ≡ false)
            ↔ (self.old.session ≡ self.old.array.first + self.old.array.rows) }
        ensures stays { result ≡ false → (self.new ≡ self.old) × (steps.new ≡ steps.old) }
        ensures cost { steps.new + applied_at self.old.array self.old.session
            ≡ steps.old + applied_at self.old.array self.new.session }
    {
        let array = self.array;
        if self.session == array.first + array.rows {
            return false;
        }
        let ahead = if self.session == array.first {
            self.window
        } else {
            1
        };
        let next = self.session + ahead;
        follow(
            array,
            self.scratch,
            self.session,
            next,
            steps,
            &mut self.applied,
        );
        self.session = next;
        true
    }

    /// The session of the last advance, counted from 0; the first one of the buffer before the first advance.
    pub fn session(&self) -> usize
        ensures { result ≡ self.now.session }
    {
        self.session
    }

    /// The bars of the i-th asset of the array, from 0, on the sessions before this one, as they are seen on
    /// it, the oldest first: in millionths, `MISSING` where there is no bar.
    pub fn window(&self, i: usize) -> &[i64]
        requires begun { self.now.array.first + self.now.window ≤ self.now.session }
        requires asset { i < length self.now.array.cols }
        // In each world of the parts, whatever assets and labels they were made for, and in the world
        // in which an asset's sid is its column.
        ensures world { IsWindow self.now.array self.now.window i self.now.session result.now }
        ensures columns { result.now ≡ bar_window (world_of self.now.array) self.now.array.column
            self.now.window (col_at self.now.array i) (pos self.now.session) }
        ensures cells { All IsCell result.now }
    {
        let array = self.array;
        let end = i * array.rows + (self.session - array.first);
        &self.scratch[end - self.window..end]
    }

    /// The greatest number of next sessions, at most `most` and none past the one after the last row, on
    /// which no adjustment of an asset of the array becomes effective, whatever column it is for. Nothing
    /// changes on them. It is 0 where one becomes effective on the next session.
    pub fn still(&self, most: usize) -> usize
        ensures few { result ≤ most }
        ensures quiet { IsQuiet self.now.array self.now.session result }
        ensures greatest { (n : ℕ) → n ≤ most → IsQuiet self.now.array self.now.session n → n ≤ result }
        ensures still { IsStill self.now.array self.now.session result }
    {
        let array = self.array;
        still_from(
            array,
            self.session,
            most.min(array.first + array.rows - self.session),
        )
    }

    /// The bars of the i-th asset from the oldest of its window on, up to the newest of its window `more`
    /// sessions later, where nothing changes on them: its windows on all these sessions, in millionths.
    pub fn reach(&self, i: usize, more: usize) -> &[i64]
        requires begun { self.now.array.first + self.now.window ≤ self.now.session }
        requires still { IsStill self.now.array self.now.session more }
        requires asset { i < length self.now.array.cols }
        ensures long { length result.now ≡ self.now.window + more }
        ensures windows { (m : ℕ) → m ≤ more → IsWindow self.now.array self.now.window i
            (self.now.session + m) (take self.now.window (drop m result.now)) }
        ensures cells { All IsCell result.now }
    {
        let array = self.array;
        let behind = i * array.rows + (self.session - array.first);
        &self.scratch[behind - self.window..behind + more]
    }

    /// Goes on by so many sessions on which nothing changes, without a step.
    pub fn pass(&mut self, more: usize)
        requires begun { self.old.array.first + self.old.window ≤ self.old.session }
        requires still { IsStill self.old.array self.old.session more }
        ensures passed { self.new ≡ record {
          array = self.old.array;
          window = self.old.window;
          session = self.old.session + more;
        } }
        ensures cost { applied_at self.old.array self.new.session
            ≡ applied_at self.old.array self.old.session }
    {
        // The call says how few sessions there are.
        let array = self.array;
        let _few = array.sessions.len();
        self.session += more;
    }

    /// How many steps the traversal took so far; u64's greatest value where there were more.
    pub fn applied(&self) -> u64
        ensures { result ≡ saturated (applied_at self.now.array self.now.session) }
    {
        self.applied
    }
}
