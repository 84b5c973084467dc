//! Look-ups that go on from a place: session after session, the next bar of an asset is where that of the
//! session before
//! ended, so that it is not searched for.

ghost use Rattle.std.specs.Prelude.{◌≡◌, ◌≤◌, IsTrue, length, position};
ghost use Rattle.pl_bars.specs.Bars.{AreBars, cells_at, is_at};
ghost use Rattle.pl_bars.specs.BarPoint.{AllBefore, BarPoint, NoneBefore};

use crate::Bars;
use crate::search::{point_of, stands_before};
use crate::starts::Starts;
use pl_fixed::MISSING;
use pl_spec::BarRow;

impl Bars {
    /// The five cells of the bar of the asset in a column on a session, in millionths: open, high, low,
    /// close, volume, each `MISSING` where there is no bar. `place` may be any number; where it was left by
    /// the look-up of the column's session before, nothing is searched.
    pub fn cells_onward(&self, col: usize, session: usize, place: &mut usize) -> [i64; 5]
        ensures { result ≡ cells_at self.now col session }
    {
        cells_onward(&self.rows, col, session, place)
    }
}

fn cells_onward(rows: &[BarRow], col: usize, session: usize, place: &mut usize) -> [i64; 5]
    requires { AreBars rows.now }
    ensures { result ≡ cells_at rows.now col session }
{
    match row_onward(rows, col, session, place) {
        Some(i) => {
            let [open, high, low, close, volume] = rows[i].cells;
            [open, high, low, close, volume]
        }
        None => [MISSING; 5],
    }
}

// The bar's own place; the place that is given moves after it.
pub(crate) fn row_onward(
    rows: &[BarRow],
    col: usize,
    session: usize,
    place: &mut usize,
) -> Option<usize>
    requires { AreBars rows.now }
    ensures { result ≡ position (is_at col session) rows.now }
{
    let i = point_onward(rows, col, session, *place);
    if i < rows.len() && rows[i].col as usize == col && rows[i].session as usize == session {
        *place = i + 1;
        Some(i)
    } else {
        *place = i;
        None
    }
}

// The point of the column and session, searched for where it is another place.
pub(crate) fn point_onward(rows: &[BarRow], col: usize, session: usize, place: usize) -> usize
    requires { AreBars rows.now }
    ensures within { result ≤ length rows.now }
    ensures point { BarPoint col session rows.now result }
{
    if is_point(rows, col, session, place) {
        place
    } else {
        point_of(rows, col, session)
    }
}

// The point of the column and session, where most times it is where the column's bars make it likely.
pub(crate) fn likely_point(bars: &[BarRow], starts: &Starts, col: usize, session: usize) -> usize
    requires { AreBars bars.now }
    ensures within { result ≤ length bars.now }
    ensures point { BarPoint col session bars.now result }
{
    let place = starts.likely_place(col, session);
    if is_point(bars, col, session, place) {
        place
    } else {
        point_between(
            bars,
            col,
            session,
            starts.start(col),
            starts.start(col.saturating_add(1)),
        )
    }
}

// The point, searched for between two places where it lies between them.
fn point_between(rows: &[BarRow], col: usize, session: usize, low: usize, high: usize) -> usize
    requires { AreBars rows.now }
    ensures within { result ≤ length rows.now }
    ensures point { BarPoint col session rows.now result }
{
    if is_between_them(rows, col, session, low, high) {
        point_in(rows, col, session, low, high)
    } else {
        point_of(rows, col, session)
    }
}

// The point, which lies between two places.
fn point_in(rows: &[BarRow], col: usize, session: usize, low: usize, high: usize) -> usize
    requires rows { AreBars rows.now }
    requires order { low ≤ high }
    requires most { high ≤ length rows.now }
    requires before { AllBefore col session rows.now low }
    requires after { NoneBefore col session rows.now high }
    ensures within { result ≤ length rows.now }
    ensures point { BarPoint col session rows.now result }
{
    low + point_of(&rows[low..high], col, session)
}

// Whether the point lies between two places.
fn is_between_them(rows: &[BarRow], col: usize, session: usize, low: usize, high: usize) -> bool
    requires { AreBars rows.now }
    ensures order { IsTrue result → low ≤ high }
    ensures within { IsTrue result → high ≤ length rows.now }
    ensures before { IsTrue result → AllBefore col session rows.now low }
    ensures after { IsTrue result → NoneBefore col session rows.now high }
{
    if low > high || high > rows.len() {
        return false;
    }
    are_before(rows, col, session, low) && are_behind(rows, col, session, high)
}

// Whether the place is the point, by the bar at it, which most times is the one, or by those beside it.
fn is_point(rows: &[BarRow], col: usize, session: usize, place: usize) -> bool
    requires { AreBars rows.now }
    ensures within { IsTrue result → place ≤ length rows.now }
    ensures point { IsTrue result → BarPoint col session rows.now place }
{
    stands_at(rows, col, session, place) || is_between(rows, col, session, place)
}

// Whether the bar of the column and session stands at a place.
fn stands_at(rows: &[BarRow], col: usize, session: usize, place: usize) -> bool
    requires { AreBars rows.now }
    ensures within { IsTrue result → place ≤ length rows.now }
    ensures point { IsTrue result → BarPoint col session rows.now place }
{
    place < rows.len() && is_bar_of(&rows[place], col, session)
}

pub(crate) fn is_bar_of(row: &BarRow, col: usize, session: usize) -> bool
    ensures { result ≡ is_at col session row.now }
{
    row.col as usize == col && row.session as usize == session
}

// Whether the bars before a place stand before the column and session, and the others do not.
fn is_between(rows: &[BarRow], col: usize, session: usize, place: usize) -> bool
    requires { AreBars rows.now }
    ensures within { IsTrue result → place ≤ length rows.now }
    ensures point { IsTrue result → BarPoint col session rows.now place }
{
    place <= rows.len()
        && are_before(rows, col, session, place)
        && are_behind(rows, col, session, place)
}

// Whether all bars up to a place stand before the column and session.
fn are_before(rows: &[BarRow], col: usize, session: usize, place: usize) -> bool
    requires rows { AreBars rows.now }
    requires place { place ≤ length rows.now }
    ensures { IsTrue result → AllBefore col session rows.now place }
{
    place == 0 || stands_before(&rows[place - 1], col, session)
}

// Whether none from a place on does.
fn are_behind(rows: &[BarRow], col: usize, session: usize, place: usize) -> bool
    requires rows { AreBars rows.now }
    requires place { place ≤ length rows.now }
    ensures { IsTrue result → NoneBefore col session rows.now place }
{
    place == rows.len() || !stands_before(&rows[place], col, session)
}
