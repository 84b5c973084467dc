//! The rows of a few sessions side by side. In the arrays the cells of an asset are one session after
//! another, and those of a row far apart.

ghost use Rattle.std.specs.Prelude.{◌≡◌, ◌≤◌, ◌<◌, ◌+◌, ◌-◌, ◌*◌, ◌^◌, ℕ, true, false, pos, length, get_or, slice_get, Some, IfSome, IfNone};
ghost use Rattle.pl_spec.specs.Cells.{truth};
ghost use Rattle.pl_spec.specs.Limits.{most_columns};
ghost use Rattle.pl_pipeline.specs.Table.{NamedColumn};
ghost use Rattle.pl_cross.specs.Arrays.{sid_in};
ghost use Rattle.pl_values.specs.Arrays.{cell_of};
ghost use Rattle.pl_table.specs.Outcomes.{HasCells, IsOutcome, IsWithin, pipeline_in, sids_in, world_in};
ghost use Rattle.pl_table.specs.Rows.{has_row};
ghost use Rattle.pl_table.specs.Tiles.{HasRows, IsPlace, IsStrip, IsTileRow, first_in, height, in_row, sessions_in, tile_len};

use crate::existence::has_row;
use crate::outcome::{Outcome, cells_from};
use pl_values::truth_of;

/// The greatest number of sessions in a tile.
const HEIGHT: usize = 16;

/// How many numbers a tile has for so many assets and columns: of each row whether it is there, and its
/// cells.
pub fn tile_len(assets: usize, columns: usize) -> usize
    requires assets { assets < 2 ^ 32 }
    requires columns { columns ≤ most_columns }
    ensures { result ≡ tile_len assets columns }
{
    HEIGHT * assets * (columns + 1)
}

/// Has the tile of the session filled where the session is its first, and gives the first.
pub(crate) fn fill_at_first(outcome: &Outcome<'_>, session: usize, tile: &mut [i64]) -> usize
    requires outcome { IsOutcome outcome.now }
    requires session { IsWithin outcome.now session }
    requires room { tile_len (length outcome.now.cols.now) (length (pipeline_in outcome.now).columns)
        ≤ length tile.old }
    requires filled { first_in outcome.now.from session < session
        → HasRows outcome.now (first_in outcome.now.from session) (length outcome.now.cols.now) tile.old }
    ensures first { result ≡ first_in outcome.now.from session }
    ensures rows { HasRows outcome.now result (length outcome.now.cols.now) tile.new }
    ensures size { length tile.new ≡ length tile.old }
{
    let first = session - (session - outcome.from) % HEIGHT;
    if first == session {
        fill(outcome, first, tile);
    }
    first
}

// Puts the rows of the sessions from one on, as many as there are and fit.
fn fill(outcome: &Outcome<'_>, first: usize, tile: &mut [i64])
    requires outcome { IsOutcome outcome.now }
    requires first { IsWithin outcome.now first }
    requires room { tile_len (length outcome.now.cols.now) (length (pipeline_in outcome.now).columns)
        ≤ length tile.old }
    ensures rows { HasRows outcome.now first (length outcome.now.cols.now) tile.new }
    ensures size { length tile.new ≡ length tile.old }
{
    for place in 0..outcome.cols.len() {
        fill_place(outcome, first, place, tile);
    }
}

// Puts the rows of one asset. Where it has none, cells are left as they are.
fn fill_place(outcome: &Outcome<'_>, first: usize, place: usize, tile: &mut [i64])
    requires outcome { IsOutcome outcome.now }
    requires first { IsWithin outcome.now first }
    requires place { place < length outcome.now.cols.now }
    requires room { tile_len (length outcome.now.cols.now) (length (pipeline_in outcome.now).columns)
        ≤ length tile.old }
    ensures rows { (j : ℕ) → j < height → first + j ≤ outcome.now.to
        → IsTileRow outcome.now (first + j) place (in_row outcome.now tile.new j place) }
    ensures others { IsPlace (length outcome.now.cols.now) (length (pipeline_in outcome.now).columns + 1)
        place tile.old tile.new }
{
    if mark_rows(outcome, first, place, tile) {
        for column in 0..outcome.asked.checked.columns() {
            copy_cells(outcome, first, place, column, tile);
        }
    }
}

// Marks the sessions on which the asset has a row. Is there one?
fn mark_rows(outcome: &Outcome<'_>, first: usize, place: usize, tile: &mut [i64]) -> bool
    requires outcome { IsOutcome outcome.now }
    requires first { IsWithin outcome.now first }
    requires place { place < length outcome.now.cols.now }
    requires room { tile_len (length outcome.now.cols.now) (length (pipeline_in outcome.now).columns)
        ≤ length tile.old }
    ensures marks { IsStrip (λ j. truth (has_row (world_in outcome.now) (pipeline_in outcome.now) (first + j)
        (sid_in (sids_in outcome.now) place))) (length outcome.now.cols.now)
        (length (pipeline_in outcome.now).columns + 1) (sessions_in first outcome.now.to) place 0 tile.old
        tile.new }
    ensures none { result ≡ false → (j : ℕ) → j < sessions_in first outcome.now.to
        → has_row (world_in outcome.now) (pipeline_in outcome.now) (first + j)
        (sid_in (sids_in outcome.now) place) ≡ false }
{
    let mut some = false;
    for j in 0..HEIGHT.min(outcome.to + 1 - first) {
        let is = has_row(outcome, place, first + j);
        let at = start_of(outcome, j, place, &*tile);
        tile[at] = truth_of(is);
        some = some || is;
    }
    some
}

// Copies the cells of a column. Those of one session stand a row of all assets behind those of the session
// before it. The loop is short, so that the processor fetches the cells of some columns at once.
fn copy_cells(outcome: &Outcome<'_>, first: usize, place: usize, column: usize, tile: &mut [i64])
    requires outcome { IsOutcome outcome.now }
    requires first { IsWithin outcome.now first }
    requires place { place < length outcome.now.cols.now }
    requires column { column < length (pipeline_in outcome.now).columns }
    requires room { tile_len (length outcome.now.cols.now) (length (pipeline_in outcome.now).columns)
        ≤ length tile.old }
    ensures { (c : NamedColumn) → slice_get (pipeline_in outcome.now).columns column ≡ Some c
        → IsStrip (λ j. cell_of (world_in outcome.now) (pipeline_in outcome.now) (sids_in outcome.now) c.term
        place (first + j)) (length outcome.now.cols.now) (length (pipeline_in outcome.now).columns + 1)
        (sessions_in first outcome.now.to) place (column + 1) tile.old tile.new }
{
    let term = outcome.asked.checked.column_term(column);
    let count = HEIGHT.min(outcome.to + 1 - first);
    let cells = cells_from(outcome, term, place, first, count);
    let session = outcome.cols.len() * width_of(outcome);
    let mut at = start_of(outcome, 0, place, &*tile) + (column + 1);
    for j in 0..count {
        tile[at] = cells[j];
        at += session;
    }
}

// How many numbers a row has.
fn width_of(outcome: &Outcome<'_>) -> usize
    requires { IsOutcome outcome.now }
    ensures value { result ≡ length (pipeline_in outcome.now).columns + 1 }
    ensures few { result ≤ 65 }
{
    outcome.asked.checked.columns() + 1
}

// Where the row of a place starts on the j-th session.
fn start_of(outcome: &Outcome<'_>, j: usize, place: usize, tile: &[i64]) -> usize
    requires outcome { IsOutcome outcome.now }
    requires session { j < height }
    requires place { place < length outcome.now.cols.now }
    requires room { tile_len (length outcome.now.cols.now) (length (pipeline_in outcome.now).columns)
        ≤ length tile.now }
    ensures value { result ≡ (j * length outcome.now.cols.now + place)
        * (length (pipeline_in outcome.now).columns + 1) }
    ensures end { result + (length (pipeline_in outcome.now).columns + 1) ≤ length tile.now }
{
    (j * outcome.cols.len() + place) * width_of(outcome)
}

/// The cells of a row, if there is one.
pub(crate) fn row_at<'t>(
    outcome: &Outcome<'_>,
    first: usize,
    session: usize,
    place: usize,
    tile: &'t [i64],
) -> Option<&'t [i64]>
    requires outcome { IsOutcome outcome.now }
    requires first { first ≤ session }
    requires near { session < first + height }
    requires session { IsWithin outcome.now session }
    requires place { place < length outcome.now.cols.now }
    requires room { tile_len (length outcome.now.cols.now) (length (pipeline_in outcome.now).columns)
        ≤ length tile.now }
    requires rows { HasRows outcome.now first (length outcome.now.cols.now) tile.now }
    ensures some { IfSome result (λ values. has_row (world_in outcome.now) (pipeline_in outcome.now) session
        (sid_in (sids_in outcome.now) place) ≡ true) }
    ensures cells { IfSome result (λ values. HasCells outcome.now place session values.now) }
    ensures none { IfNone result (has_row (world_in outcome.now) (pipeline_in outcome.now) session
        (sid_in (sids_in outcome.now) place) ≡ false) }
{
    let at = start_of(outcome, session - first, place, tile);
    let row = &tile[at..at + width_of(outcome)];
    if row[0] == 1 { Some(&row[1..]) } else { None }
}
