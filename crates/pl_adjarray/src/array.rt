//! What a traversal reads: a bar column of some assets, and what adjusts it.

ghost use Rattle.std.specs.Prelude.{◌≡◌, ◌+◌, ◌*◌, ◌<◌, ◌≤◌, length};
ghost use Rattle.pl_adjarray.specs.Buffered.{applied_at};

use crate::windows::Windows;
use pl_adjust::Adjustments;
use pl_bars::Bars;
use pl_calendar::Sessions;
use pl_fixed::Column;
use std::marker::Model;

/// One column of the bars of some assets on `rows` sessions from `first` on, and what adjusts it.
#[derive(Drop)]
pub struct AdjustedArray<'a> {
    pub(crate) bars: &'a Bars,
    pub(crate) adjustments: &'a Adjustments,
    pub(crate) sessions: &'a Sessions,
    pub(crate) column: Column,
    pub(crate) first: usize,
    pub(crate) rows: usize,
    pub(crate) cols: &'a [u32],
}

impl<'a> Model for AdjustedArray<'a> {
    ghost use Rattle.pl_adjarray.specs.Buffered.{Buffered};
    ghost use Rattle.pl_adjarray.specs.Inside.{buffered_of, IsInside};

    ghost Value = { Buffered };

    ghost view = { buffered_of };

    ghost invariant = { IsInside };
}

impl<'a> AdjustedArray<'a> {
    /// The bars of the assets in the columns `cols`, in that order. After the last row there must be one more
    /// session.
    pub fn new(
        bars: &'a Bars,
        adjustments: &'a Adjustments,
        sessions: &'a Sessions,
        column: Column,
        first: usize,
        rows: usize,
        cols: &'a [u32],
    ) -> AdjustedArray<'a>
        requires range { first + rows < length sessions.now }
        ensures { result ≡ record {
          days = sessions.entry.now;
          bars = bars.entry.now;
          adjustments = adjustments.entry.now;
          column = column;
          first = first;
          rows = rows;
          cols = cols.entry.now;
        } }
    {
        // Both calls say that their lists are in order.
        let _ascending = sessions.len();
        let _by_day = adjustments.len();
        AdjustedArray {
            bars,
            adjustments,
            sessions,
            column,
            first,
            rows,
            cols,
        }
    }

    /// Begins a traversal with windows of so many sessions, in a scratch of `rows` cells for each asset. It
    /// fills the scratch with raw bars in millionths, all sessions of the first asset and then those of the
    /// next one.
    pub fn traverse<'s>(&'s self, window: usize, scratch: &'s mut [i64]) -> Windows<'s>
        requires some { 1 ≤ window }
        requires most { window ≤ self.now.rows }
        requires room { length scratch.old ≡ self.now.rows * length self.now.cols }
        ensures begins { result ≡ record {
          array = self.now;
          window = window;
          session = self.now.first;
        } }
        ensures none { applied_at self.now self.now.first ≡ 0 }
    {
        self.bars
            .fill_column(self.column, self.first, self.rows, self.cols, scratch);
        Windows {
            array: self,
            scratch,
            window,
            session: self.first,
            applied: 0,
        }
    }
}
