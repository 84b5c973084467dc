//! What the check of a derivation reads and judges.

ghost use Rattle.std.specs.Prelude.{IfOk};
ghost use Rattle.pl_words.specs.Views.{verify_of};
ghost use Rattle.pl_world.specs.Worlds.{IsOwnedMade};
ghost use Rattle.pl_load.specs.Views.{shelf_change, keeper_change};
ghost use Rattle.pl_load.specs.Derived.{IsDerivationLoad};

use crate::fault::Fault;
use crate::inputs::{read_derivation, read_evaluated};
use crate::loading::read_world;
use pl_derivation::Derivation;
use pl_outside::{AdjustKeeper, Shelf};
use pl_terms::Checked;
use pl_words::VerifyRequest;
use pl_world::OwnedWorld;
use std::alloc::Global;

/// The lines of a derivation, and the pipeline and the world of which they tell.
pub struct LoadedDerivation {
    pub checked: Checked,
    pub world: OwnedWorld,
    pub derivation: Derivation,
}

// One call lets it go, so that no caller's proof goes into its parts.
impl Drop for LoadedDerivation {
    fn drop(self) {
        let LoadedDerivation {
            checked: _checked,
            world: _world,
            derivation: _derivation,
        } = self;
    }
}

/// Reads and judges all that the check of a derivation asks for, in this order: the pipeline file, the files
/// and tables of the world, and the lines, whose form alone is judged here. The fault is the first one, or
/// want of memory.
pub fn load_derivation<S: Shelf, K: AdjustKeeper>(
    alloc: Global,
    request: &VerifyRequest<'_>,
    shelf: &mut S,
    keeper: &mut K,
) -> Result<LoadedDerivation, Fault>
    ensures load { IsDerivationLoad (shelf_change S.Shelf shelf.old shelf.new)
        (keeper_change K.AdjustKeeper keeper.old keeper.new)
        (verify_of request.now) result }
    ensures made { IfOk result (λ l. IsOwnedMade l.world) }
{
    let checked = read_evaluated(alloc, shelf, request.pipeline, &request.world)?;
    let world = read_world(alloc, &request.world, shelf, keeper)?;
    let derivation = read_derivation(alloc, shelf, request.derivation)?;
    Ok(LoadedDerivation {
        checked,
        world,
        derivation,
    })
}
