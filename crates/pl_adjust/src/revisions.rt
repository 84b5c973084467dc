//! The revisions of bars: a vendor corrects a cell, and the correction is known from a day on.

mod error;
mod fields;
mod reading;
mod rows;

pub use error::RevisionsError;
use pl_fixed::Column;
pub(crate) use reading::read_revisions;

/// How many revisions a file may have. The limit is this project's own.
pub const MOST_REVISIONS: usize = 200_000;

/// From the day `known` on the cell of a bar column in the bar of the asset `sid` on the session of the day
/// `bar_day` is `value`, in millionths of the units of that day; `MISSING` takes it away. Days are
/// counted from 1970-01-01.
#[derive(Clone, Copy, Debug, PartialEq, Eq)]
pub struct Revision {
    pub sid: u32,
    pub bar_day: i32,
    pub column: Column,
    pub value: i64,
    pub known: i32,
}
