//! The numbers beside bars that a run's line counts.

ghost use Rattle.std.specs.Prelude.{◌≡◌};
ghost use Rattle.pl_load.specs.Loads.{IsReadyRun};
ghost use Rattle.pl_cli.specs.Commands.{loaded_present};

use pl_load::Loaded;
use pl_world::{has_numbers, present_numbers};

// How many cells of numbers beside bars are present on the sessions of the table, where the pipeline uses
// such numbers.
pub(crate) fn present_of(loaded: &Loaded) -> Option<u64>
    requires ready { IsReadyRun loaded.now }
    ensures { result ≡ loaded_present loaded.now }
{
    if !has_numbers(&loaded.checked) {
        return None;
    }
    let world = loaded.world.world();
    let plan = &loaded.plan;
    Some(present_numbers(&world, &loaded.checked, plan.from(), plan.to()))
}
