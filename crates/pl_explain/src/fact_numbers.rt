//! The numbers of facts.

ghost use Rattle.std.specs.Prelude.{◌≡◌, None, OnOk};
ghost use Rattle.pl_explain.specs.Keys.{fact_of};
ghost use Rattle.pl_explain.specs.Looking.{look, IsInsertionOf};

use crate::fact::{Fact, key};
use pl_fixed::Memory;
use std::alloc::Global;
use std::collections::HashMap;

/// The numbers of some facts, found by the fact: the last cell of a bar as it is seen, or the value of a
/// term, as arrays hold it.
#[derive(Drop)]
pub(crate) struct FactNumbers {
    numbers: HashMap<u128, i64>,
}

impl FactNumbers {
    /// No fact has a number.
    #[tactic(auto, unfolding(crate::specs::Looking::look))]
    pub(crate) fn new(alloc: Global) -> FactNumbers
        ensures { (f : _) → look result f ≡ None }
    {
        FactNumbers {
            numbers: HashMap::new(alloc),
        }
    }

    /// The number of a fact, in millionths, a filter's 1 or 0, a label's code, or `MISSING`; `None` where it
    /// has none.
    #[tactic(auto, unfolding(crate::specs::Looking::look))]
    pub(crate) fn number(&self, fact: Fact) -> Option<i64>
        ensures { result ≡ look self.now (fact_of fact) }
    {
        self.numbers.get(&key(fact)).copied()
    }

    /// Puts the number of a fact there, in place of one that is there already. The only error is want of
    /// memory.
    pub(crate) fn insert(&mut self, fact: Fact, number: i64) -> Result<(), Memory>
        ensures { OnOk result (IsInsertionOf (fact_of fact) number self.old self.new) }
    {
        self.numbers.insert(key(fact), number)?;
        Ok(())
    }
}
