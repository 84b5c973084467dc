//! A day as it is fed.
use pl_adjust::Adjust;

/// The bar of the asset in a column: open, high, low, close, volume, in millionths, each `MISSING` where it
/// has none.
#[derive(Clone, Copy, Debug, PartialEq, Eq)]
pub struct DayBar {
    pub col: u32,
    pub cells: [i64; 5],
}

/// An adjustment of the asset in a column, effective on its day, counted from 1970-01-01.
#[derive(Clone, Copy, Debug, PartialEq, Eq)]
pub struct DayEvent {
    pub col: u32,
    pub adjust: Adjust,
}

/// A day as it is handed in on its morning, counted from 1970-01-01: the bars of the session before it by
/// ascending column, and the adjustments that are effective later than the day before and by this one, in the
/// order of columns and then in that in which they act.
#[derive(Clone, Copy)]
pub struct Day<'a> {
    pub day: i32,
    pub bars: &'a [DayBar],
    pub events: &'a [DayEvent],
}
