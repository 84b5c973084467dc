//! One term on one day: what it is computed from.
use crate::columns::BarRings;
use crate::rings::Rings;
use pl_assets::{Assets, Labels};
use pl_numbers::Numbers;
use pl_terms::{Checked, Node, TermId};

/// What is held of a term: its cells on the last day, one for each asset by ascending sid, and the rings of
/// its cells on the last sessions up to that day, oldest first, where a window is over it.
#[derive(Drop)]
pub struct TermCells {
    pub row: Vec<i64>,
    pub rings: Rings,
}

/// Term `term` of a pipeline, which is `node`, on a day, counted from 1970-01-01; the terms that it mentions
/// have that day's cells. `start` has the cells of the input of a downsampled term on the first session of
/// the day's period; other terms do not read it.
#[derive(Clone, Copy)]
pub struct TermDay<'t> {
    pub checked: &'t Checked,
    pub assets: &'t Assets,
    pub labels: &'t Labels,
    pub numbers: Option<&'t Numbers>,
    pub bars: &'t BarRings,
    pub terms: &'t [TermCells],
    pub term: TermId,
    pub node: &'t Node,
    pub start: &'t [i64],
    pub day: i32,
}
