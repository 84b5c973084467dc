//! Which calls of a part in memory fail, and what was counted.

ghost use Rattle.std.specs.Prelude.{◌≡◌, is_err};
ghost use Rattle.pl_outside.specs.Calls.{next_fails, no_calls, one_more};
ghost use Rattle.pl_outside.specs.Counts.{count_plus};

use crate::faults::Failed;
use std::marker::Model;

/// The calls of a part in memory, numbered from 1 over all methods of its trait. The count stays at u64's
/// greatest value.
#[derive(Drop)]
pub struct CallLog {
    failing: Vec<u64>,
    made: u64,
    faults: u64,
}

impl Model for CallLog {
    ghost use Rattle.pl_outside.specs.Calls.{Calls};

    ghost Value = { Calls };

    ghost view = { λ a. record { failing = a.failing.items; made = a.made; faults = a.faults } };
}

impl CallLog {
    /// No call was made yet; those with the numbers in `failing`, in any order, are to fail.
    pub fn new(failing: Vec<u64>) -> CallLog
        ensures { result ≡ no_calls failing.items }
    {
        CallLog {
            failing,
            made: 0,
            faults: 0,
        }
    }

    /// Counts a call. `Failed` comes exactly where its number is one of those that are to fail; then a fault
    /// is counted too.
    pub fn take_call(&mut self) -> Result<(), Failed>
        ensures fails { is_err result ≡ next_fails self.old }
        ensures after { self.new ≡ one_more self.old (next_fails self.old) }
    {
        self.made = self.made.saturating_add(1);
        if self.failing.contains(&self.made) {
            self.count_fault();
            return Err(Failed);
        }
        Ok(())
    }

    /// Counts a fault that the call has by itself, as where a name isn't held; the count stays at u64's
    /// greatest value.
    pub fn count_fault(&mut self)
        ensures { self.new ≡ record self.old { faults = count_plus self.old.faults 1 } }
    {
        self.faults = self.faults.saturating_add(1);
    }
}
