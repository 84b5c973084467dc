//! What keeps the rows of adjustments.

ghost use Rattle.std.specs.Prelude.{◌≡◌, ◌≤◌, ◌++◌, ℕ, [], Option, List, None, Err, OnOk, OnErr, IsTrue, IsSome, IsErrOf, Bool, false};
ghost use Rattle.std.specs.Option.{ForSome};
ghost use Rattle.pl_outside.specs.declared.keeper.Table.{Table};
ghost use Rattle.pl_outside.specs.Counts.{Rose, count_plus};
ghost use Rattle.pl_outside.specs.Lists.{Lists, IsAscending};
ghost use Rattle.pl_outside.specs.Logs.{Loaded, Loads};

use crate::faults::Failed;
use pl_spec::RawAdjust;
use std::alloc::{AllocError, Global};
use std::marker::Model;

/// A table of adjustments, as Zipline's database of adjustments has them: `splits`, `mergers`, `dividends`.
#[derive(Clone, Copy, Debug, PartialEq, Eq)]
pub enum Table {
    Splits,
    Mergers,
    Dividends,
}

/// Why rows aren't loaded.
#[derive(Clone, Copy, Debug, PartialEq, Eq)]
pub enum KeepError {
    /// The keeper counted a fault.
    Failed,
    /// Memory ran out.
    Memory,
}

impl From<Failed> for KeepError {
    ghost use Rattle.pl_outside.specs.declared.keeper.KeepError.TheVariants.{Failed};

    ghost from_gives = { λ _ e. e ≡ Failed };

    fn from(_fault: Failed) -> KeepError {
        KeepError::Failed
    }
}

impl From<AllocError> for KeepError {
    ghost use Rattle.pl_outside.specs.declared.keeper.KeepError.TheVariants.{Memory};

    ghost from_gives = { λ _ e. e ≡ Memory };

    fn from(_refused: AllocError) -> KeepError {
        KeepError::Memory
    }
}

/// Three lists of rows by name, each in ascending id with distinct ids.
///
/// The lists of a sound keeper are known, and it never counts a fault or answers Failed.
pub trait AdjustKeeper {
    /// The rows of each name and table, where they are known.
    ghost lists: { Self → Option Lists };

    /// What it loaded, whatever it is; the table that was loaded last stands first.
    ghost loaded: { Self → List Loaded };

    /// How many faults it has counted, up to the count's end.
    ghost faults: { Self → ℕ };

    /// How many calls it has taken, up to the count's end.
    ghost calls: { Self → ℕ };

    /// Whether it is sound.
    ghost sound: { Self → Bool };

    /// Appends the whole list of that name and table to `into`, in ascending id. `Failed` comes only where
    /// the keeper counted a fault, as for a name or table that it can't read; after an error `into` is as
    /// before.
    fn load(
        &mut self,
        alloc: Global,
        name: &str,
        table: Table,
        into: &mut Vec<RawAdjust>,
    ) -> Result<(), KeepError>
        ensures appended { ForSome (lists self.old)
            (λ lists. OnOk result (into.new.items ≡ into.old.items ++ lists name.now table)) }
        ensures logged { Loads (loaded self.old) (loaded self.new) name.now table
            into.old.items into.new.items result }
        ensures same { OnErr result (into.new.items ≡ into.old.items) }
        ensures failed { IsErrOf result KeepError.Failed → Rose (faults self.old) (faults self.new) }
        ensures later { faults self.old ≤ faults self.new }
        ensures never { IsTrue (sound self.old)
            → ¬ IsErrOf result KeepError.Failed × (faults self.new ≡ faults self.old) }
        ensures counted { calls self.new ≡ count_plus (calls self.old) 1 }
        ensures keeps { lists self.new ≡ lists self.old }
        ensures stays { sound self.new ≡ sound self.old };

    // The lists of a sound keeper are known.
    ghost sound_tells: { (keeper : Self) → IsTrue (sound keeper) → IsSome (lists keeper) };

    // Each list that is known is in ascending id.
    ghost lists_ascend: { (keeper : Self)
        → ForSome (lists keeper)
        (λ lists. (name : List ℕ) (table : Table) → IsAscending (lists name table)) };
}

/// A keeper of nothing: each load is a fault.
#[derive(Drop)]
pub struct NoKeeper {
    faults: u64,
}

// It is seen as its count of faults.
impl Model for NoKeeper {
    ghost Value = { ℕ };

    ghost view = { λ a. a.faults };
}

impl NoKeeper {
    /// No fault was counted yet.
    pub fn new() -> NoKeeper
        ensures { result ≡ 0 }
    {
        NoKeeper { faults: 0 }
    }
}

impl AdjustKeeper for NoKeeper {
    ghost lists = { λ _. None };

    ghost loaded = { λ _. [] };

    ghost faults = { λ count. count };

    // each of its calls is a fault
    ghost calls = { λ count. count };

    ghost sound = { λ _. false };

    fn load(
        &mut self,
        _alloc: Global,
        _name: &str,
        _table: Table,
        into: &mut Vec<RawAdjust>,
    ) -> Result<(), KeepError>
        ensures fails { result ≡ Err KeepError.Failed }
        ensures counts { self.new ≡ count_plus self.old 1 }
        ensures same { into.new ≡ into.old }
    {
        self.faults = self.faults.saturating_add(1);
        Err(KeepError::Failed)
    }

    ghost use Rattle.std.proofs.Common.{rules};

    ghost sound_tells = { Prim.search rules };

    ghost lists_ascend = { Prim.search rules };
}
