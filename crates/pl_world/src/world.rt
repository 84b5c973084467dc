//! The parts of a world, lent.

use pl_adjust::Adjustments;
use pl_assets::{Assets, Labels};
use pl_bars::Bars;
use pl_calendar::Sessions;
use pl_numbers::Numbers;

/// The sessions, assets, labels, bars, adjustments and numbers of a world, each lent by its owner. A session
/// is known by its place among the sessions, an asset by its column, which is its place among the assets;
/// both are counted from 0.
#[derive(Clone, Copy)]
pub struct World<'a> {
    pub sessions: &'a Sessions,
    pub assets: &'a Assets,
    pub labels: &'a Labels,
    pub bars: &'a Bars,
    pub adjustments: &'a Adjustments,
    pub numbers: &'a Numbers,
}
