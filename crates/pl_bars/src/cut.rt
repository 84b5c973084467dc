//! The bars before a session.

ghost use Rattle.std.specs.Prelude.{◌≡◌, IfOk};
ghost use Rattle.pl_spec.specs.AsOf.{bars_before};

use pl_spec::BarRow;
use std::alloc::{AllocError, Global};

// The rows of the sessions below `sessions`.
pub(crate) fn rows_before(
    alloc: Global,
    rows: &[BarRow],
    sessions: usize,
) -> Result<Vec<BarRow>, AllocError>
    ensures { IfOk result (λ v. v.items ≡ bars_before sessions rows.now) }
{
    rows.iter()
        .copied()
        .filter(|row| (row.session as usize) < sessions)
        .collect(alloc)
}
