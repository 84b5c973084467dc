//! Faults are counted, up to the greatest number of 64 bits.

ghost use Rattle.std.specs.Prelude.{◌≡◌};
ghost use Rattle.pl_outside.specs.Counts.{count_plus};

use pl_outside::Failed;

// One fault more.
pub(crate) fn failed(faults: &mut u64) -> Failed
    ensures { faults.new ≡ count_plus faults.old 1 }
{
    *faults = faults.saturating_add(1);
    Failed
}
