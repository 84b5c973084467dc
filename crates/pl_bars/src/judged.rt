//! The bars of the records of a file, as far as they were judged.

ghost use Rattle.std.specs.Prelude.{◌≡◌, ◌≤◌, [], ◌++◌, true, false, length, vec_capacity, List, IsTrue, IfOk, IfErr};
ghost use Rattle.pl_records.specs.Reading.{Answers, Record, rows_behind};
ghost use Rattle.pl_records.specs.Records.{csv_records};
ghost use Rattle.pl_bars.specs.Bars.{bar_or_rule};
ghost use Rattle.pl_bars.specs.Faults.{fault_of};
ghost use Rattle.pl_bars.specs.InPieces.{AreKept, AreRowsOf, IsFaultOf};

use crate::bar_set::BarSet;
use crate::dates::dates_of;
use crate::error::BarsError;
use crate::reading::put_rows;
use pl_calendar::Sessions;
use pl_fixed::KnownDate;
use pl_lifetimes::Assets;
use pl_records::Records;
use pl_spec::BarRow;
use std::alloc::{AllocError, Global};

// The bars in the order of the file with their set, whether that is seen to be the order of columns and
// sessions, and whether the header was read.
#[derive(Drop)]
pub(crate) struct Judged {
    dates: Vec<KnownDate>,
    seen: BarSet,
    pub(crate) rows: Vec<BarRow>,
    pub(crate) rise: bool,
    pub(crate) headed: bool,
}

impl Judged {
    // No record was judged, and there is room for so many bars. Memory that no bar reaches is never touched.
    #[tactic(auto, using(crate::proofs::BarOrder::rise_empty))]
    pub(crate) fn new(
        alloc: Global,
        room: usize,
        sessions: &Sessions,
        assets: &Assets,
    ) -> Result<Judged, AllocError>
        ensures rows { IfOk result (λ j. AreRowsOf sessions.now assets.now j.headed j.rows.items []) }
        ensures kept { IfOk result (AreKept sessions.now assets.now) }
        ensures room { IfOk result (λ j. vec_capacity j.rows ≡ room) }
    {
        let dates = dates_of(alloc, sessions)?;
        let seen = BarSet::new(alloc, assets.len(), sessions.len())?;
        Ok(Judged {
            dates,
            seen,
            rows: Vec::with_capacity(alloc, room)?,
            rise: true,
            headed: false,
        })
    }

    // Judges the records of a text that stands behind those that were judged.
    pub(crate) fn judge(
        &mut self,
        alloc: Global,
        text: &[u8],
        sessions: &Sessions,
        assets: &Assets,
    ) -> Result<(), BarsError>
        requires kept { AreKept sessions.now assets.now self.old }
        ensures kept { IfOk result (λ _. AreKept sessions.now assets.now self.new) }
        ensures rows { (front : List Record)
            → AreRowsOf sessions.now assets.now self.old.headed self.old.rows.items front
            → IfOk result (λ _. AreRowsOf sessions.now assets.now self.new.headed self.new.rows.items
            (front ++ csv_records text.now)) }
        ensures fault { (front : List Record)
            → AreRowsOf sessions.now assets.now self.old.headed self.old.rows.items front
            → IfErr result (IsFaultOf sessions.now assets.now (front ++ csv_records text.now)) }
    {
        let mut records = Records::new(alloc, text);
        if self.headed {
            self.judge_rows(&mut records, sessions, assets)
        } else {
            self.judge_first(&mut records, sessions, assets)
        }
    }

    // Judges the first records of a file.
    fn judge_first(
        &mut self,
        records: &mut Records,
        sessions: &Sessions,
        assets: &Assets,
    ) -> Result<(), BarsError>
        requires kept { AreKept sessions.now assets.now self.old }
        requires first { self.old.headed ≡ false }
        ensures kept { IfOk result (λ _. AreKept sessions.now assets.now self.new) }
        ensures rows { self.old.rows.items ≡ []
            → IfOk result (λ _. AreRowsOf sessions.now assets.now self.new.headed self.new.rows.items
            records.old.left) }
        ensures fault { self.old.rows.items ≡ []
            → IfErr result (IsFaultOf sessions.now assets.now records.old.left) }
    {
        if !records.next()? {
            return Ok(());
        }
        if !records.has_fields(&[
            b"sid", b"session", b"open", b"high", b"low", b"close", b"volume",
        ]) {
            return Err(BarsError::BadHeader);
        }
        self.headed = true;
        self.judge_rows(records, sessions, assets)
    }

    // Judges records behind the header.
    fn judge_rows(
        &mut self,
        records: &mut Records,
        sessions: &Sessions,
        assets: &Assets,
    ) -> Result<(), BarsError>
        requires kept { AreKept sessions.now assets.now self.old }
        ensures kept { IfOk result (λ _. AreKept sessions.now assets.now self.new) }
        ensures headed { self.new.headed ≡ self.old.headed }
        ensures exact { Answers (λ _. self.new.rows.items) fault_of result
            (rows_behind 2 (bar_or_rule sessions.now assets.now) self.old.rows.items records.old.left) }
    {
        self.rise = put_rows(
            &mut self.rows,
            &self.dates,
            &mut self.seen,
            self.rise,
            records,
            sessions,
            assets,
        )?;
        Ok(())
    }
}
