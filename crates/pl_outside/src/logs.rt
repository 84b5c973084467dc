//! What was given, loaded and taken, as clauses alone read it: a log has no bytes, and its methods do nothing
//! at run time.
//!
//! A log says what its owner tells it. So each method of the traits has a clause that ties the log to what
//! the call answered, and a caller that sees an object through its trait changes the log by those calls alone.

ghost use Rattle.std.specs.Prelude.{◌≡◌, ◌++◌, ◌∷◌, ℕ, List, []};
ghost use Rattle.std.specs.Borrow.{ftrue};
ghost use Rattle.pl_outside.specs.Logs.{Given, Loaded, begins, gives};

use crate::keeper::Table;
use pl_spec::RawAdjust;
use std::marker::Model;

/// What a shelf gave since the log was made.
#[derive(Drop)]
pub struct GivenLog {
    pub ghost files: { List Given },
}

impl Model for GivenLog {
    ghost also_owns = { λ _. ftrue };
}

impl GivenLog {
    /// No file was begun.
    pub fn new() -> GivenLog
        ensures { result.files ≡ [] }
    {
        GivenLog {}
    }

    /// A file of this name is begun.
    pub fn begins(&mut self, _name: &[u8])
        ensures { self.new.files ≡ begins self.old.files _name.now }
    {}

    /// These bytes are given of the file that was begun last, and `ended` says whether this is its end.
    pub fn gives(&mut self, _bytes: &[u8], _ended: bool)
        ensures { self.new.files ≡ gives self.old.files _bytes.now _ended }
    {}
}

/// What a keeper loaded since the log was made.
#[derive(Drop)]
pub struct LoadedLog {
    pub ghost tables: { List Loaded },
}

impl Model for LoadedLog {
    ghost also_owns = { λ _. ftrue };
}

impl LoadedLog {
    /// Nothing was loaded.
    pub fn new() -> LoadedLog
        ensures { result.tables ≡ [] }
    {
        LoadedLog {}
    }

    /// These rows of the table are loaded.
    pub fn loads(&mut self, _name: &[u8], _table: &Table, _rows: &[RawAdjust])
        ensures { self.new.tables
            ≡ record { name = _name.now; table = _table.now; rows = _rows.now } ∷ self.old.tables }
    {}
}

/// The bytes that a sink took since the log was made.
#[derive(Drop)]
pub struct TakenLog {
    pub ghost bytes: { List ℕ },
}

impl Model for TakenLog {
    ghost also_owns = { λ _. ftrue };
}

impl TakenLog {
    /// Nothing was taken.
    pub fn new() -> TakenLog
        ensures { result.bytes ≡ [] }
    {
        TakenLog {}
    }

    /// These bytes are taken.
    pub fn takes(&mut self, _bytes: &[u8])
        ensures { self.new.bytes ≡ self.old.bytes ++ _bytes.now }
    {}
}
