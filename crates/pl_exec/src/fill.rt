//! The array of one term: asset by asset where its cells come from windows or from cells of the same place,
//! else session by session.
ghost use Rattle.std.specs.Prelude.{◌≡◌, ◌+◌, ◌*◌, ◌<◌, ◌≤◌, ℕ, true, false, pos, get_or, length, slice_set, [], ◌∷◌};
ghost use Rattle.pl_spec.specs.Rounding.{IsCell};
ghost use Rattle.pl_pipeline.specs.Graph.{columns_at};
ghost use Rattle.pl_spec.specs.Limits.{saturated};
ghost use Rattle.pl_adjarray.specs.Buffered.{applied_at};
ghost use Rattle.pl_values.specs.Arrays.{IsRow};
ghost use Rattle.pl_values.specs.Families.{IsOf};
ghost use Rattle.pl_exec.specs.Tasks.{IsArray, assets_in, graph_in, term_steps};
ghost use Rattle.pl_exec.specs.ChunkInputs.{AreBars, AreGiven, FillsLane, HasNoBars, HasRows, IsColumnRun, IsCourse, IsLane, IsRowOfTerm, IsTermSession, buffer_at, by_rows, counted, node_at, node_in, one_col, rows_at, steps_of, task_at, task_in, traversal_at};

use crate::columns::new_column;
use crate::course::{Course, Lane, on_session};
use crate::keep::keep_lane;
use crate::kinds::{is_by_rows, kind_row};
use crate::leaves::{constant_lane, label_lane, label_test_lane, number_lane, sids_lane};
use crate::points::point_lane;
use crate::rows::Rows;
use crate::term_session::{TermSession, keep_row};
use crate::windows::{Bars, advance_all, applied, fill_stretch, pass, sources_of, still};
use pl_adjarray::{AdjustedArray, Windows};
use pl_cross::Cross;
use pl_fixed::{Column, Steps};
use pl_values::{Family, family_of, kind_of, window_of};
use std::sync::ledger::Ledger;

fn put(cells: &mut [i64], place: usize, cell: i64)
    requires { place < length cells.old }
    ensures { cells.new ≡ slice_set cells.old place cell }
{
    cells[place] = cell;
}

// Where the cells of an asset begin in an array of so many sessions.
fn start_in(cells: &[i64], i: usize, count: usize) -> usize
    requires { i * count + count ≤ length cells.now }
    ensures value { result ≡ i * count }
    ensures within { result + count ≤ length cells.now }
{
    i * count
}

// A session's cells into an array.
fn put_row(row: &[i64], cells: &mut [i64], count: usize, session: usize)
    requires cells { (i : ℕ) → i < length row.now → IsCell (get_or row.now i (pos 0)) }
    requires within { session < count }
    requires room { length row.now * count ≤ length cells.old }
    ensures { IsRow (λ i. get_or row.now i (pos 0)) (length row.now) count session cells.old cells.new }
{
    for i in 0..row.len() {
        put(cells, i * count + session, row[i]);
    }
}

// The cells on a session, where they come row by row.
fn row_on(
    term_session: &TermSession<'_>,
    family: Family,
    cross: &mut Cross,
    first: &mut [i64],
    second: &mut [i64],
    keep: &mut [i64],
    out: &mut [i64],
)
    requires term_session { IsTermSession term_session.now }
    requires family { IsOf (node_at term_session.now).kind family }
    requires rows { by_rows family ≡ true }
    requires cross { assets_in (task_at term_session.now) ≤ cross.old }
    requires first { length first.old ≡ assets_in (task_at term_session.now) }
    requires second { length second.old ≡ assets_in (task_at term_session.now) }
    requires keep { length keep.old ≡ assets_in (task_at term_session.now) }
    requires long { length out.old ≡ assets_in (task_at term_session.now) }
    ensures out { IsRowOfTerm term_session.now out.new }
    ensures cross { cross.new ≡ cross.old }
{
    keep_row(term_session, first, keep);
    kind_row(term_session, family, cross, first, second, keep, out);
}

// What a term that reads no bar columns is worth for an asset, whether that is kept or not.
fn given_lane(lane: &Lane<'_>, family: Family, out: &mut [i64])
    requires lane { IsLane lane.now }
    requires family { IsOf (node_in lane.now.course.now).kind family }
    requires lanes { by_rows family ≡ false }
    requires none { HasNoBars (node_in lane.now.course.now) }
    requires long { length out.old ≡ lane.now.course.now.count }
    ensures { AreGiven lane.now.course.now lane.now.i out.new }
{
    match family {
        Family::Constant(value) => constant_lane(lane, value, out),
        Family::Label(name) => label_lane(lane, name, out),
        Family::Number(figure, name) => number_lane(lane, figure, name, out),
        Family::Sids => sids_lane(lane, out),
        Family::LabelTest => label_test_lane(lane, out),
        Family::Point => point_lane(lane, out),
        Family::Window => fill_stretch(lane, None, 0, out),
        Family::Section => unreachable!(),
        Family::Downsample(_) => unreachable!(),
    }
}

// The cells of an asset of a term that reads no bar columns.
fn plain_lane(lane: &Lane<'_>, family: Family, out: &mut [i64])
    requires lane { IsLane lane.now }
    requires family { IsOf (node_in lane.now.course.now).kind family }
    requires lanes { by_rows family ≡ false }
    requires none { columns_at (graph_in (task_in lane.now.course.now)) lane.now.course.now.term.0 ≡ 0 }
    requires long { length out.old ≡ lane.now.course.now.count }
    ensures { FillsLane lane.now.course.now lane.now.i out.new }
{
    given_lane(lane, family, out);
    keep_lane(lane, out);
}

// The array of a term whose cells come asset by asset, and which reads no bar columns.
fn fill_lanes<'x>(course: &Course<'x>, family: Family, own: &mut [i64])
    requires course { IsCourse course.now }
    requires family { IsOf (node_in course.now).kind family }
    requires lanes { by_rows family ≡ false }
    requires none { columns_at (graph_in (task_in course.now)) course.now.term.0 ≡ 0 }
    requires room { assets_in (task_in course.now) * course.now.count ≤ length own.old }
    ensures { IsArray (task_in course.now) course.now.term.0 own.new }
{
    let sources = sources_of(course);
    let count = course.count;
    let chunk = course.chunk;
    for i in 0..chunk.cols.len() {
        let start = start_in(own, i, count);
        let lane = Lane {
            course: &*course,
            sources: &sources,
            i,
        };
        plain_lane(&lane, family, &mut own[start..start + count]);
    }
}

// The array of a term that reads no bar columns, over rows that have room for its assets.
fn fill_over(
    course: &Course<'_>,
    own: &mut [i64],
    cross: &mut Cross,
    first: &mut [i64],
    second: &mut [i64],
    keep: &mut [i64],
    out: &mut [i64],
)
    requires course { IsCourse course.now }
    requires none { columns_at (graph_in (task_in course.now)) course.now.term.0 ≡ 0 }
    requires room { assets_in (task_in course.now) * course.now.count ≤ length own.old }
    requires cross { assets_in (task_in course.now) ≤ cross.old }
    requires first { assets_in (task_in course.now) ≤ length first.old }
    requires second { assets_in (task_in course.now) ≤ length second.old }
    requires keep { assets_in (task_in course.now) ≤ length keep.old }
    requires out { assets_in (task_in course.now) ≤ length out.old }
    ensures array { IsArray (task_in course.now) course.now.term.0 own.new }
    ensures cross { cross.new ≡ cross.old }
{
    let family = family_of(kind_of(course.node));
    if !is_by_rows(family) {
        return fill_lanes(course, family, own);
    }
    let assets = course.chunk.cols.len();
    for j in 0..course.count {
        let term_session = on_session(course, j);
        let row = &mut out[..assets];
        row_on(
            &term_session,
            family,
            cross,
            &mut first[..assets],
            &mut second[..assets],
            &mut keep[..assets],
            row,
        );
        put_row(row, own, course.count, j);
    }
}

/// The array of a term that reads no bar columns.
pub(crate) fn fill_plain(course: &Course<'_>, own: &mut [i64], cross: &mut Cross, rows: &mut Rows)
    requires course { IsCourse course.now }
    requires none { columns_at (graph_in (task_in course.now)) course.now.term.0 ≡ 0 }
    requires room { assets_in (task_in course.now) * course.now.count ≤ length own.old }
    requires cross { assets_in (task_in course.now) ≤ cross.old }
    requires rows { assets_in (task_in course.now) ≤ rows.old }
    ensures array { IsArray (task_in course.now) course.now.term.0 own.new }
    ensures cross { cross.new ≡ cross.old }
    ensures rows { rows.new ≡ rows.old }
{
    let first = rows.first.as_mut_slice();
    let second = rows.second.as_mut_slice();
    let keep = rows.keep.as_mut_slice();
    let out = rows.results.as_mut_slice();
    fill_over(course, own, cross, first, second, keep, out);
}

// The column of one asset.
fn one_of(cols: &[u32], i: usize) -> &[u32]
    requires { i < length cols.now }
    ensures { result.now ≡ get_or cols.now i 0 ∷ [] }
{
    &cols[i..i + 1]
}

// The rows of the input in a place, for some assets.
fn column_array<'a>(course: &Course<'a>, place: usize, cols: &'a [u32]) -> AdjustedArray<'a>
    requires course { IsCourse course.now }
    requires deep { (node_in course.now).window ≤ course.now.low }
    requires some { 1 ≤ (node_in course.now).window }
    ensures { result ≡ buffer_at course.now.chunk.now course.now.term.0 (node_in course.now) cols.now place }
{
    let size = window_of(course.node);
    let first = course.low - size;
    let rows = course.chunk.to - course.low + size;
    let world = course.chunk.world;
    match new_column(course.node, place) {
        Some(column) => AdjustedArray::new(
            world.bars,
            world.adjustments,
            world.sessions,
            column,
            first,
            rows,
            cols,
        ),
        None => AdjustedArray::new(
            world.bars,
            world.adjustments,
            world.sessions,
            Column::Close,
            first,
            rows,
            &[],
        ),
    }
}

// How many cells the traversal of a place is given for one asset: those of its rows, none where it is no new
// column.
fn cells_for(lane: &Lane<'_>, place: usize, cells: &[i64]) -> usize
    requires lane { IsLane lane.now }
    requires has { HasRows (task_in lane.now.course.now) lane.now.course.now.term.0
        (node_in lane.now.course.now) place cells.now }
    ensures value { result ≡ (rows_at lane.now place).rows * length (rows_at lane.now place).cols }
    ensures within { result ≤ length cells.now }
{
    let course = lane.course;
    match new_column(course.node, place) {
        Some(_) => course.chunk.to - course.low + window_of(course.node),
        None => 0,
    }
}

// The traversal of a place for an asset, in the front of the cells that are given; it begins.
fn begin_bars<'s>(
    lane: &Lane<'_>,
    place: usize,
    array: &'s AdjustedArray<'_>,
    cells: &'s mut [i64],
) -> Windows<'s>
    requires run { IsColumnRun lane.now.course.now.chunk.now lane.now.course.now.workspace.now
        lane.now.course.now.term.0 (node_in lane.now.course.now) }
    requires lane { IsLane lane.now }
    requires array { array.now ≡ rows_at lane.now place }
    requires has { HasRows (task_in lane.now.course.now) lane.now.course.now.term.0
        (node_in lane.now.course.now) place cells.old }
    ensures begins { result ≡ traversal_at lane.now.course.now.chunk.now lane.now.course.now.term.0
        (node_in lane.now.course.now) (one_col lane.now.course.now.chunk.now lane.now.i) place 0 }
    ensures none { applied_at result.array result.session ≡ 0 }
{
    let many = cells_for(lane, place, cells);
    array.traverse(window_of(lane.course.node), &mut cells[..many])
}

// The cells of an asset, by traversals of its bars that begin: from one change of the bars to the next at
// once.
fn walk_bars<L: Ledger>(lane: &Lane<'_>, out: &mut [i64], bars: &mut Bars<'_>, steps: &mut Steps<L>)
    requires run { IsColumnRun lane.now.course.now.chunk.now lane.now.course.now.workspace.now
        lane.now.course.now.term.0 (node_in lane.now.course.now) }
    requires lane { IsLane lane.now }
    requires long { length out.old ≡ lane.now.course.now.count }
    requires bars { AreBars lane.now.course.now.chunk.now lane.now.course.now.term.0
        (node_in lane.now.course.now) (one_col lane.now.course.now.chunk.now lane.now.i) 0 bars.old }
    requires none { counted bars.old ≡ 0 }
    ensures out { FillsLane lane.now.course.now lane.now.i out.new }
    ensures bars { AreBars lane.now.course.now.chunk.now lane.now.course.now.term.0
        (node_in lane.now.course.now) (one_col lane.now.course.now.chunk.now lane.now.i)
        lane.now.course.now.count bars.new }
    ensures cost { steps.new ≡ steps.old + counted bars.new }
{
    let mut done = 0;
    while done < out.len() {
        advance_all(bars, steps);
        let more = still(bars, out.len() - 1 - done);
        let end = done + more + 1;
        fill_stretch(lane, Some(bars), done, &mut out[done..end]);
        pass(bars, more);
        done = end;
    }
    keep_lane(lane, out);
}

// The cells of an asset, whose bars are traversed in the cells that are given.
fn fill_asset<L: Ledger>(
    lane: &Lane<'_>,
    out: &mut [i64],
    first: &mut [i64],
    second: &mut [i64],
    third: &mut [i64],
    steps: &mut Steps<L>,
) -> u64
    requires run { IsColumnRun lane.now.course.now.chunk.now lane.now.course.now.workspace.now
        lane.now.course.now.term.0 (node_in lane.now.course.now) }
    requires lane { IsLane lane.now }
    requires long { length out.old ≡ lane.now.course.now.count }
    requires first { HasRows (task_in lane.now.course.now) lane.now.course.now.term.0
        (node_in lane.now.course.now) 0 first.old }
    requires second { HasRows (task_in lane.now.course.now) lane.now.course.now.term.0
        (node_in lane.now.course.now) 1 second.old }
    requires third { HasRows (task_in lane.now.course.now) lane.now.course.now.term.0
        (node_in lane.now.course.now) 2 third.old }
    ensures out { FillsLane lane.now.course.now lane.now.i out.new }
    ensures cost { steps.new ≡ steps.old + steps_of lane.now.course.now.chunk.now lane.now.course.now.term.0
        (node_in lane.now.course.now) (one_col lane.now.course.now.chunk.now lane.now.i) }
    ensures applied { result ≡ saturated (steps_of lane.now.course.now.chunk.now lane.now.course.now.term.0
        (node_in lane.now.course.now) (one_col lane.now.course.now.chunk.now lane.now.i)) }
{
    let course = lane.course;
    let chunk = course.chunk;
    let cols = one_of(chunk.cols, lane.i);
    let first_array = column_array(course, 0, cols);
    let second_array = column_array(course, 1, cols);
    let third_array = column_array(course, 2, cols);
    let mut bars = Bars {
        first: begin_bars(lane, 0, &first_array, first),
        second: begin_bars(lane, 1, &second_array, second),
        third: begin_bars(lane, 2, &third_array, third),
    };
    walk_bars(lane, out, &mut bars, steps);
    applied(&bars)
}

/// The array of a term over bar columns, asset by asset. An asset's bars are traversed in the front of the
/// cells that are given: for each place of an input those of a slot, where the place has a new column. Gives
/// the steps of the traversals, or u64's greatest value where there are more.
pub(crate) fn fill_bars<'x, L: Ledger>(
    course: &Course<'x>,
    own: &mut [i64],
    first: &mut [i64],
    second: &mut [i64],
    third: &mut [i64],
    steps: &mut Steps<L>,
) -> u64
    requires run { IsColumnRun course.now.chunk.now course.now.workspace.now course.now.term.0
        (node_in course.now) }
    requires course { IsCourse course.now }
    requires room { assets_in (task_in course.now) * course.now.count ≤ length own.old }
    requires first { HasRows (task_in course.now) course.now.term.0 (node_in course.now) 0 first.old }
    requires second { HasRows (task_in course.now) course.now.term.0 (node_in course.now) 1 second.old }
    requires third { HasRows (task_in course.now) course.now.term.0 (node_in course.now) 2 third.old }
    ensures array { IsArray (task_in course.now) course.now.term.0 own.new }
    ensures cost { steps.new ≡ steps.old + term_steps (task_in course.now) course.now.term.0 }
    ensures applied { result ≡ saturated (term_steps (task_in course.now) course.now.term.0) }
{
    let sources = sources_of(course);
    let count = course.count;
    let chunk = course.chunk;
    let mut applied = 0u64;
    for i in 0..chunk.cols.len() {
        let start = start_in(own, i, count);
        let lane = Lane {
            course: &*course,
            sources: &sources,
            i,
        };
        let out = &mut own[start..start + count];
        let more = fill_asset(&lane, out, first, second, third, steps);
        applied = applied.saturating_add(more);
    }
    applied
}
