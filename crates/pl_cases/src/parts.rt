//! Parts in memory, and a run over them.

ghost use Rattle.std.specs.Prelude.{◌≡◌, ◌<◌, ◌<ℤ◌, ◌-◌, IfOk, IfSome, IsTrue, Some, length, slice_get};
ghost use Rattle.pl_spec.specs.declared.RawAdjust.{RawAdjust};
ghost use Rattle.pl_outside.specs.Lists.{IsAscending};
ghost use Rattle.pl_load.specs.Loads.{IsReadyRun};

use crate::case::Case;
use crate::recorded::RecordedKeeper;
use anyhow::{Context, Result, bail};
use pl_cli::run_program;
use pl_fixed::{Steps, read_day};
use pl_load::{Loaded, load};
use pl_outside::{MemoryKeeper, MemoryShelf, MemorySink, RawAdjust};
use pl_words::RunRequest;
use std::alloc::Global;
use std::marker::Brand;
use std::sync::ledger::{Blank, Ledger};

/// The numbers of the calls of each part that are to fail; 0 for none.
#[derive(Clone, Copy)]
pub(crate) struct Failing {
    pub(crate) shelf: u64,
    pub(crate) keeper: u64,
    pub(crate) out: u64,
    pub(crate) err: u64,
}

pub(crate) const SOUND: Failing = Failing {
    shelf: 0,
    keeper: 0,
    out: 0,
    err: 0,
};

/// What a run left: its status, what it put on `out` and `err`, and the tables that it loaded, a line each.
#[derive(PartialEq, Eq)]
pub(crate) struct Left {
    pub(crate) status: u8,
    pub(crate) out: Vec<u8>,
    pub(crate) err: Vec<u8>,
    pub(crate) loaded: Vec<u8>,
}

// One call lets it go, so that no caller's proof goes into its parts.
impl Drop for Left {
    fn drop(self) {
        let Left {
            status: _status,
            out: _out,
            err: _err,
            loaded: _loaded,
        } = self;
    }
}

/// Parts over the files and tables of a case.
pub(crate) struct Parts {
    shelf: MemoryShelf,
    keeper: RecordedKeeper,
    out: MemorySink,
    err: MemorySink,
}

// One call lets them go, as above.
impl Drop for Parts {
    fn drop(self) {
        let Parts {
            shelf: _shelf,
            keeper: _keeper,
            out: _out,
            err: _err,
        } = self;
    }
}

impl Parts {
    pub(crate) fn new(alloc: Global, case: &Case, failing: Failing) -> Result<Parts> {
        Ok(Parts {
            shelf: shelf_of(alloc, case, failing.shelf)?,
            keeper: RecordedKeeper::new(alloc, keeper_of(alloc, case, failing.keeper)?),
            out: sink_of(alloc, failing.out, 0, case.text("out").len())?,
            err: sink_of(alloc, failing.err, 3, 0)?,
        })
    }

    /// What a run reads; none where it is refused.
    pub(crate) fn load(&mut self, alloc: Global, request: &RunRequest<'_>) -> Option<Loaded>
        ensures { IfSome result IsReadyRun }
    {
        match load(alloc, request, &mut self.shelf, &mut self.keeper) {
            Ok(loaded) => Some(loaded),
            Err(_) => None,
        }
    }

    /// What a command leaves after what is there.
    pub(crate) fn leave(&mut self, alloc: Global, words: &[String]) -> Result<Left> {
        let out = self.out.bytes().len();
        let err = self.err.bytes().len();
        let loaded = self.keeper.loaded().len();
        Ok(Left {
            status: run::<Brand>(alloc, words, self, Blank::new(1)),
            out: behind(alloc, self.out.bytes(), out)?,
            err: behind(alloc, self.err.bytes(), err)?,
            loaded: behind(alloc, self.keeper.loaded(), loaded)?,
        })
    }
}

fn behind(alloc: Global, bytes: &[u8], place: usize) -> Result<Vec<u8>> {
    let bytes = bytes.get(place..).context("bytes that are gone")?;
    Ok(bytes.to_vec(alloc)?)
}

fn run<L: Ledger>(alloc: Global, words: &[String], parts: &mut Parts, blank: Blank) -> u8
    requires name { blank.name ≡ L.name }
    requires parts { blank.parts ≡ L.parts }
    requires some { 0 < L.parts }
{
    let mut steps = Steps::<L>::new(blank);
    run_program(
        alloc,
        words,
        &mut parts.shelf,
        &mut parts.keeper,
        &mut parts.out,
        &mut parts.err,
        &mut steps,
    )
}

/// What a command leaves over the files and tables of a case.
pub(crate) fn left_by(
    alloc: Global,
    case: &Case,
    words: &[String],
    failing: Failing,
) -> Result<Left> {
    Parts::new(alloc, case, failing)?.leave(alloc, words)
}

// The files of a case.
fn shelf_of(alloc: Global, case: &Case, failing: u64) -> Result<MemoryShelf> {
    let mut shelf = MemoryShelf::new(alloc, vec![in alloc; failing]?);
    put_files(alloc, case, &mut shelf)?;
    Ok(shelf)
}

fn put_files(alloc: Global, case: &Case, shelf: &mut MemoryShelf) -> Result<()> {
    for text in case.texts() {
        if let Some(name) = text.title.strip_prefix("file ") {
            shelf
                .put(String::from_str(alloc, name)?, text.bytes.to_vec(alloc)?)
                .ok()
                .context("memory")?;
        }
    }
    Ok(())
}

// The tables of a case, as those of `adj.db`.
fn keeper_of(alloc: Global, case: &Case, failing: u64) -> Result<MemoryKeeper> {
    let name = String::from_str(alloc, "adj.db")?;
    let splits = rows_of(alloc, case.text("splits"))?;
    let mergers = rows_of(alloc, case.text("mergers"))?;
    let dividends = rows_of(alloc, case.text("dividends"))?;
    let failing = vec![in alloc; failing]?;
    Ok(MemoryKeeper::new(name, splits, mergers, dividends, failing))
}

// A sink with room for so many bytes and a million more, which takes pieces of so many bytes.
fn sink_of(alloc: Global, failing: u64, piece: usize, room: usize) -> Result<MemorySink> {
    let mut sink = MemorySink::new(alloc, vec![in alloc; failing]?, piece);
    let room = room.checked_add(1_000_000).context("memory")?;
    sink.reserve(room).ok().context("memory")?;
    Ok(sink)
}

// The rows of a table, one a line.
fn rows_of(alloc: Global, text: &[u8]) -> Result<Vec<RawAdjust>>
    ensures { IfOk result (λ rows. IsAscending rows.items) }
{
    let mut rows = Vec::new(alloc);
    let text = String::from_utf8_lossy(alloc, text)?;
    for line in text.lines() {
        let last = last_id(&rows);
        let row = row_of(line, last).context("no row of a table")?;
        add_row(&mut rows, row)?;
    }
    Ok(rows)
}

fn last_id(rows: &[RawAdjust]) -> i64 {
    match rows.last() {
        Some(row) => row.id,
        None => 0,
    }
}

fn add_row(rows: &mut Vec<RawAdjust>, row: RawAdjust) -> Result<()>
    requires { IsAscending rows.old.items }
    ensures { IfOk result (λ _. IsAscending rows.new.items) }
{
    if !is_behind(rows, row.id) {
        bail!("ids that do not ascend");
    }
    rows.push(row)?;
    Ok(())
}

// Whether the id is greater than that of the last row.
fn is_behind(rows: &[RawAdjust], id: i64) -> bool
    ensures { IsTrue result → (last : RawAdjust)
        → slice_get rows.now (length rows.now - 1) ≡ Some last → last.id <ℤ id }
{
    match rows.last() {
        Some(last) => last.id < id,
        None => true,
    }
}

fn row_of(line: &str, last: i64) -> Option<RawAdjust> {
    let mut fields = line.split(' ');
    let id = id_of(fields.next()?, last)?;
    let effective = effective_of(fields.next()?)?;
    let num = fields.next()?.parse::<i64>().ok()?;
    let den = fields.next()?.parse::<i64>().ok()?;
    let sid = fields.next()?.parse::<i64>().ok()?;
    Some(RawAdjust {
        id,
        effective,
        num,
        den,
        sid,
    })
}

fn id_of(field: &str, last: i64) -> Option<i64> {
    match field {
        "+" => last.checked_add(1),
        _ => field.parse::<i64>().ok(),
    }
}

// A number of seconds, or the first second of a date.
fn effective_of(field: &str) -> Option<i64> {
    match read_day(field.as_bytes()) {
        Some(day) => Some(i64::from(day) * 86_400),
        None => field.parse::<i64>().ok(),
    }
}
