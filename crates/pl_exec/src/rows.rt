//! Rows of one session.
ghost use Rattle.std.specs.Prelude.{◌≡◌, IfOk};

use pl_fixed::Memory;
use std::alloc::Global;
use std::marker::Model;

/// Room for the rows of a session of up to so many assets, which contracts see: the values of a cross-section
/// and their groups, who is kept, and the results.
#[derive(Debug)]
pub struct Rows {
    pub(crate) first: Vec<i64>,
    pub(crate) second: Vec<i64>,
    pub(crate) keep: Vec<i64>,
    pub(crate) results: Vec<i64>,
}

// One call lets them go.
impl Drop for Rows {
    fn drop(self) {
        let Rows {
            first: _first,
            second: _second,
            keep: _keep,
            results: _results,
        } = self;
    }
}

impl Model for Rows {
    ghost use Rattle.std.specs.Prelude.{ℕ, length};
    ghost use Rattle.pl_exec.specs.RowsInside.{AreRows};

    ghost Value = { ℕ };

    ghost view = { λ r. length r.keep.items };

    ghost invariant = { AreRows };
}

impl Rows {
    /// Takes the memory for sessions of up to `cols` assets. The only error is that there is none.
    pub fn reserve(alloc: Global, cols: usize) -> Result<Rows, Memory>
        ensures { IfOk result (λ rows. rows ≡ cols) }
    {
        Ok(Rows {
            first: vec![in alloc; 0; cols]?,
            second: vec![in alloc; 0; cols]?,
            keep: vec![in alloc; 0; cols]?,
            results: vec![in alloc; 0; cols]?,
        })
    }
}
