//! The parts of a world, lent.

use pl_adjust::Adjustments;
use pl_assets::{Assets, Labels};
use pl_bars::Bars;
use pl_calendar::Sessions;
use pl_numbers::Numbers;

/// The sessions, assets, labels, bars, adjustments and numbers of a world, each lent by its owner.
#[derive(Clone, Copy)]
pub struct Parts<'a> {
    pub sessions: &'a Sessions,
    pub assets: &'a Assets,
    pub labels: &'a Labels,
    pub bars: &'a Bars,
    pub adjustments: &'a Adjustments,
    pub numbers: &'a Numbers,
}
