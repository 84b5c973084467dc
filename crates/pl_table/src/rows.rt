//! The rows of sessions.
ghost use Rattle.std.specs.Prelude.{◌≡◌, ◌≤◌, ◌<◌, ◌+◌, ◌-◌, ◌*◌, ◌++◌, ◌^◌, pos, ◌+ℤ◌, length, slice_get, unsigned_abs, Some, OnOk};
ghost use Rattle.pl_spec.specs.Limits.{most_columns};
ghost use Rattle.pl_spec.specs.Rounding.{LIMIT};
ghost use Rattle.pl_spec.specs.World.{exists};
ghost use Rattle.pl_pipeline.specs.Table.{NamedColumn, is_kept, table_row, session_rows};
ghost use Rattle.pl_pipeline.specs.Text.{row_line};
ghost use Rattle.pl_outside.specs.Taken.{IsWrittenIn, Writes};
ghost use Rattle.pl_cross.specs.Arrays.{sid_in};
ghost use Rattle.pl_table.specs.Outcomes.{AreCells, HasCells, IsOutcome, IsTable, IsWithin, lines, pipeline_in, rows_of_sessions, sids_in, world_in};
ghost use Rattle.pl_table.specs.Rows.{IsPut, has_row, row_values, value_fields};
ghost use Rattle.pl_table.specs.Sums.{rows_sum, values_sum};
ghost use Rattle.pl_table.specs.Tiles.{HasRows, first_in, height, tile_len};

use crate::fields::{put_cell, put_date, put_end, put_sid};
use crate::line::Line;
use crate::outcome::{Outcome, sid_of};
use crate::tile::{fill_at_first, row_at};
use crate::totals::Totals;
use crate::writing::{Writing, writings_of};
use pl_fixed::MISSING;
use pl_outside::{Failed, Sink, write_bytes};

/// The rows of an outcome, and how the values of each column are written.
#[derive(Clone, Copy)]
struct Table<'a> {
    outcome: &'a Outcome<'a>,
    writings: &'a [Writing],
}

/// The cells of a row, which is that of the asset in a place on a session, column by column, and how each is
/// written.
#[derive(Clone, Copy)]
struct Cells<'a> {
    outcome: &'a Outcome<'a>,
    place: usize,
    session: usize,
    values: &'a [i64],
    writings: &'a [Writing],
}

/// Writes the rows of all sessions of an outcome, session by session and by ascending sid, each in one piece,
/// and counts them. A session's row is there for each asset that exists and passes the screen. `Failed` comes
/// where the sink counted a fault; then a prefix of the rows was written.
pub fn write_rows<O: Sink>(
    outcome: &Outcome<'_>,
    tile: &mut [i64],
    line: &mut Line,
    totals: &mut Totals,
    out: &mut O,
) -> Result<(), Failed>
    requires outcome { IsOutcome outcome.now }
    requires room { tile_len (length outcome.now.cols.now) (length (pipeline_in outcome.now).columns)
        ≤ length tile.old }
    requires few { totals.old.rows
        + (outcome.now.to + 1 - outcome.now.from) * length outcome.now.cols.now < 2 ^ 63 }
    ensures writes { Writes O.taken O.faults O.sound O.room out.old out.new
        (lines (world_in outcome.now) (pipeline_in outcome.now) outcome.now.asked.format
        (rows_of_sessions (world_in outcome.now) (pipeline_in outcome.now) outcome.now.from
        (outcome.now.to + 1 - outcome.now.from))) result }
    ensures pieces { OnOk result (IsWrittenIn O.whole O.calls out.old out.new
        (totals.new.rows - totals.old.rows)) }
    ensures rows { OnOk result (totals.new.rows ≡ totals.old.rows
        + length (rows_of_sessions (world_in outcome.now) (pipeline_in outcome.now) outcome.now.from
        (outcome.now.to + 1 - outcome.now.from))) }
    ensures sum { OnOk result (totals.new.sum ≡ totals.old.sum
        +ℤ rows_sum (world_in outcome.now).texts
        (rows_of_sessions (world_in outcome.now) (pipeline_in outcome.now) outcome.now.from
        (outcome.now.to + 1 - outcome.now.from))) }
    ensures few { OnOk result (totals.new.rows ≤ totals.old.rows
        + (outcome.now.to + 1 - outcome.now.from) * length outcome.now.cols.now) }
    ensures room { length tile.new ≡ length tile.old }
{
    let writings = writings_of(outcome.asked.checked);
    let table = Table {
        outcome: &*outcome,
        writings: &writings,
    };
    for session in outcome.from..outcome.to + 1 {
        let first = fill_at_first(outcome, session, tile);
        write_session(&table, first, session, &*tile, line, totals, out)?;
    }
    Ok(())
}

// Writes the rows of one session.
fn write_session<O: Sink>(
    table: &Table<'_>,
    first: usize,
    session: usize,
    tile: &[i64],
    line: &mut Line,
    totals: &mut Totals,
    out: &mut O,
) -> Result<(), Failed>
    requires table { IsTable table.now }
    requires first { first ≤ session }
    requires near { session < first + height }
    requires session { IsWithin table.now.outcome.now session }
    requires room { let o = table.now.outcome.now in
        tile_len (length o.cols.now) (length (pipeline_in o).columns) ≤ length tile.now }
    requires rows { let o = table.now.outcome.now in HasRows o first (length o.cols.now) tile.now }
    requires few { totals.old.rows + length table.now.outcome.now.cols.now < 2 ^ 63 }
    ensures writes { let o = table.now.outcome.now in Writes O.taken O.faults O.sound O.room out.old out.new
        (lines (world_in o) (pipeline_in o) o.asked.format
        (session_rows (world_in o) (pipeline_in o) (pos session))) result }
    ensures pieces { OnOk result (IsWrittenIn O.whole O.calls out.old out.new
        (totals.new.rows - totals.old.rows)) }
    ensures rows { let o = table.now.outcome.now in OnOk result (totals.new.rows ≡ totals.old.rows
        + length (session_rows (world_in o) (pipeline_in o) (pos session))) }
    ensures sum { let o = table.now.outcome.now in OnOk result (totals.new.sum ≡ totals.old.sum
        +ℤ rows_sum (world_in o).texts (session_rows (world_in o) (pipeline_in o) (pos session))) }
    ensures few { OnOk result (totals.new.rows ≤ totals.old.rows + length table.now.outcome.now.cols.now) }
{
    let outcome = table.outcome;
    for place in 0..outcome.cols.len() {
        if let Some(values) = row_at(outcome, first, session, place, tile) {
            write_row(table, place, session, values, line, totals, out)?;
        }
    }
    Ok(())
}

// Writes the row of one asset.
fn write_row<O: Sink>(
    table: &Table<'_>,
    place: usize,
    session: usize,
    values: &[i64],
    line: &mut Line,
    totals: &mut Totals,
    out: &mut O,
) -> Result<(), Failed>
    requires table { IsTable table.now }
    requires place { place < length table.now.outcome.now.cols.now }
    requires session { IsWithin table.now.outcome.now session }
    requires values { HasCells table.now.outcome.now place session values.now }
    requires few { totals.old.rows < 2 ^ 63 }
    ensures writes { let o = table.now.outcome.now in Writes O.taken O.faults O.sound O.room out.old out.new
        (row_line (world_in o) (pipeline_in o) o.asked.format
        (table_row (world_in o) (pipeline_in o) (pos session) (sid_in (sids_in o) place))) result }
    ensures pieces { IsWrittenIn O.whole O.calls out.old out.new 1 }
    ensures rows { totals.new.rows ≡ totals.old.rows + 1 }
    ensures sum { let o = table.now.outcome.now in totals.new.sum ≡ totals.old.sum
        +ℤ values_sum (world_in o).texts
        (table_row (world_in o) (pipeline_in o) (pos session) (sid_in (sids_in o) place)).values }
{
    let outcome = table.outcome;
    let format = outcome.asked.format;
    let cells = Cells {
        outcome: &*outcome,
        place,
        session,
        values: &*values,
        writings: table.writings,
    };
    line.clear();
    put_date(line, format, outcome.asked.world.sessions.day(session));
    put_sid(line, format, sid_of(outcome, place));
    let sum = put_values(&cells, line);
    put_end(line, format);
    totals.count_row(sum);
    write_bytes(out, line.as_slice())
}

// Puts the fields of the columns, and gives the sum of their cells.
fn put_values(cells: &Cells<'_>, line: &mut Line) -> i128
    requires cells { AreCells cells.now }
    requires room { length line.old ≤ 21 }
    ensures text { line.new ≡ line.old ++ value_fields (world_in cells.now.outcome.now)
        (pipeline_in cells.now.outcome.now) cells.now.outcome.now.asked.format
        (sid_in (sids_in cells.now.outcome.now) cells.now.place) (pos cells.now.session)
        (pipeline_in cells.now.outcome.now).columns }
    ensures within { length line.new ≤ 8_447 }
    ensures sum { result ≡ values_sum (world_in cells.now.outcome.now).texts
        (row_values (world_in cells.now.outcome.now) (pipeline_in cells.now.outcome.now)
        (sid_in (sids_in cells.now.outcome.now) cells.now.place) (pos cells.now.session)
        (pipeline_in cells.now.outcome.now).columns) }
    ensures small { unsigned_abs result ≤ most_columns * LIMIT }
{
    let outcome = cells.outcome;
    let checked = outcome.asked.checked;
    let mut sum = 0i128;
    for column in 0..checked.columns() {
        sum += put_value(cells, column, line);
    }
    sum
}

// Puts the field of one column, and gives its cell for the sum.
fn put_value(cells: &Cells<'_>, column: usize, line: &mut Line) -> i128
    requires cells { AreCells cells.now }
    requires column { column < length (pipeline_in cells.now.outcome.now).columns }
    requires room { length line.old + 131 ≤ 8_448 }
    ensures value { (c : NamedColumn) → slice_get (pipeline_in cells.now.outcome.now).columns column ≡ Some c
        → IsPut (world_in cells.now.outcome.now) (pipeline_in cells.now.outcome.now)
        cells.now.outcome.now.asked.format (sid_in (sids_in cells.now.outcome.now) cells.now.place)
        (pos cells.now.session) c line.old line.new result }
    ensures within { length line.new ≤ length line.old + 131 }
    ensures small { unsigned_abs result ≤ LIMIT }
{
    let outcome = cells.outcome;
    let cell = cells.values[column];
    let writing = cells.writings[column];
    let asked = &outcome.asked;
    put_cell(line, asked.format, writing, cell, asked.world.labels);
    if cell == MISSING { 0 } else { i128::from(cell) }
}
