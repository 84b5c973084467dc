//! The parts of a world, owned.

ghost use Rattle.std.specs.Prelude.{◌≡◌};

use crate::world::World;
use pl_adjust::Adjustments;
use pl_assets::{Assets, Labels};
use pl_bars::Bars;
use pl_calendar::Sessions;
use pl_numbers::Numbers;

/// The parts of a world, owned. Sessions, assets and bars count from 0 as `World` says.
pub struct OwnedWorld {
    pub sessions: Sessions,
    pub assets: Assets,
    pub labels: Labels,
    pub bars: Bars,
    pub adjustments: Adjustments,
    pub numbers: Numbers,
}

// One call lets it go, so that no caller's proof goes into its parts.
impl Drop for OwnedWorld {
    fn drop(self) {
        let OwnedWorld {
            sessions: _sessions,
            assets: _assets,
            labels: _labels,
            bars: _bars,
            adjustments: _adjustments,
            numbers: _numbers,
        } = self;
    }
}

impl OwnedWorld {
    /// Lends its parts as a world.
    pub fn world(&self) -> World<'_>
        ensures sessions { result.sessions.now ≡ self.now.sessions }
        ensures assets { result.assets.now ≡ self.now.assets }
        ensures labels { result.labels.now ≡ self.now.labels }
        ensures bars { result.bars.now ≡ self.now.bars }
        ensures adjustments { result.adjustments.now ≡ self.now.adjustments }
        ensures numbers { result.numbers.now ≡ self.now.numbers }
    {
        World {
            sessions: &self.sessions,
            assets: &self.assets,
            labels: &self.labels,
            bars: &self.bars,
            adjustments: &self.adjustments,
            numbers: &self.numbers,
        }
    }
}
