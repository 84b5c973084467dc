//! Where the bars of each column begin. A place is only likely and judged where it is used, so that no clause
//! speaks of it.
ghost use Rattle.pl_bars.specs.Bars.{AreBars};

use crate::onward::point_onward;
use pl_spec::BarRow;
use std::alloc::{AllocError, Global};

// The place of a column's first bar, and its session, which is kept so that the bar need not be fetched.
#[derive(Clone, Copy, Debug)]
struct Start {
    place: usize,
    session: usize,
}

// Where the columns' bars begin, where that was looked up.
#[derive(Debug, Drop)]
pub(crate) struct Starts {
    columns: Option<Vec<Start>>,
}

impl Starts {
    // None is known.
    pub(crate) fn unknown() -> Starts {
        Starts { columns: None }
    }

    // Those of so many columns. Most have as many bars as the one before.
    pub(crate) fn new(alloc: Global, bars: &[BarRow], cols: usize) -> Result<Starts, AllocError>
        requires { AreBars bars.now }
    {
        let mut columns = Vec::new(alloc);
        let mut start = 0usize;
        let mut count = 0usize;
        for col in 0..cols {
            let next = point_onward(bars, col, 0, start.saturating_add(count));
            count = next.saturating_sub(start);
            start = next;
            columns.push(start_at(bars, start))?;
        }
        Ok(Starts {
            columns: Some(columns),
        })
    }

    // Where the bars of a column seem to begin.
    pub(crate) fn start(&self, col: usize) -> usize {
        self.of(col).place
    }

    // Where the bar of a column and session would stand if the column had one on each session from its first
    // bar on.
    pub(crate) fn likely_place(&self, col: usize, session: usize) -> usize {
        let start = self.of(col);
        start
            .place
            .saturating_add(session.saturating_sub(start.session))
    }

    fn of(&self, col: usize) -> Start {
        let first = Start {
            place: 0,
            session: 0,
        };
        match &self.columns {
            Some(columns) => {
                if col < columns.len() {
                    columns[col]
                } else {
                    first
                }
            }
            None => first,
        }
    }
}

// The start of a column whose bars begin there.
fn start_at(bars: &[BarRow], place: usize) -> Start {
    let session = if place < bars.len() {
        bars[place].session as usize
    } else {
        0
    };
    Start { place, session }
}
