//! Formulas and filters over the windows of a node's inputs, which are the ends of rings.
ghost use Rattle.std.specs.Prelude.{◌≡◌, ◌≤◌, ◌<◌, true, length};
ghost use Rattle.pl_spec.specs.Rounding.{IsCell};
ghost use Rattle.pl_spec.specs.Cells.{is_true};
ghost use Rattle.pl_terms.specs.Sorts.{is_windowed};
ghost use Rattle.pl_values.specs.Arrays.{chosen, empty_cell};
ghost use Rattle.pl_daily.specs.Rows.{Shows};
ghost use Rattle.pl_daily.specs.TermDays.{IsRowInEveryWorld, IsKept, IsTermDay, Moment, assets_at, node_at, pipeline_at};
ghost use Rattle.pl_daily.specs.TermDays.{HoldsWindows};
ghost use Rattle.pl_daily.specs.Windows.{window_at, windowed_by, window_size};

use crate::rings::copy_window;
use crate::term_day::TermDay;
use pl_terms::Input;
use pl_values::{input_at, is_one, kind_of, window_of, window_value};

// The window of the input in a place that ends so many sessions before the day, for an asset; it has the
// length of the slice.
fn read_window(term_day: &TermDay<'_>, place: usize, i: usize, after: usize, window: &mut [i64])
    requires held { (v : Moment) × IsTermDay term_day.now v × HoldsWindows term_day.now v after }
    requires asset { i < assets_at term_day.now }
    requires size { length window.old ≡ window_size (node_at term_day.now) place }
    ensures { window.new ≡ window_at term_day.now place after i }
{
    // most kinds read fewer windows
    if window.is_empty() {
        return;
    }
    match input_at(term_day.node, place) {
        Some(Input::Term(term)) => {
            copy_window(
                &term_day.terms[term.0 as usize].rings.rings[i],
                after,
                window,
            );
        }
        Some(Input::Column(column)) => {
            copy_window(&term_day.bars.of(column).rings[i], after, window);
        }
        None => {}
    }
}

// How long the window of the input in a place is.
pub(crate) fn size_of(term_day: &TermDay<'_>, place: usize) -> usize
    ensures { result ≡ window_size (node_at term_day.now) place }
{
    match input_at(term_day.node, place) {
        Some(_) => window_of(term_day.node),
        None => 0,
    }
}

/// What the kind gives over windows that end so many sessions before the day. The slices are for them.
pub(crate) fn window_back(
    term_day: &TermDay<'_>,
    i: usize,
    after: usize,
    first: &mut [i64],
    second: &mut [i64],
    third: &mut [i64],
) -> i64
    requires held { (v : Moment) × IsTermDay term_day.now v × HoldsWindows term_day.now v after }
    requires kind { is_windowed (node_at term_day.now).kind ≡ true }
    requires asset { i < assets_at term_day.now }
    requires first { length first.old ≡ window_size (node_at term_day.now) 0 }
    requires second { length second.old ≡ window_size (node_at term_day.now) 1 }
    requires third { length third.old ≡ window_size (node_at term_day.now) 2 }
    ensures value { result ≡ windowed_by term_day.now after i }
    ensures cell { IsCell result }
    ensures first { length first.new ≡ length first.old }
    ensures second { length second.new ≡ length second.old }
    ensures third { length third.new ≡ length third.old }
{
    read_window(term_day, 0, i, after, first);
    read_window(term_day, 1, i, after, second);
    read_window(term_day, 2, i, after, third);
    window_value(kind_of(term_day.node), first, second, third)
}

// The term's cell for an asset. The slices are for its windows.
fn window_cell(
    term_day: &TermDay<'_>,
    i: usize,
    keep: i64,
    empty: i64,
    first: &mut [i64],
    second: &mut [i64],
    third: &mut [i64],
) -> i64
    requires term_day { (v : Moment) × IsTermDay term_day.now v }
    requires kind { is_windowed (node_at term_day.now).kind ≡ true }
    requires asset { i < assets_at term_day.now }
    requires none { IsCell empty }
    requires first { length first.old ≡ window_size (node_at term_day.now) 0 }
    requires second { length second.old ≡ window_size (node_at term_day.now) 1 }
    requires third { length third.old ≡ window_size (node_at term_day.now) 2 }
    ensures value { result ≡ chosen (is_true keep) (windowed_by term_day.now 0 i) empty }
    ensures cell { IsCell result }
    ensures first { length first.new ≡ length first.old }
    ensures second { length second.new ≡ length second.old }
    ensures third { length third.new ≡ length third.old }
{
    if !is_one(keep) {
        return empty;
    }
    window_back(term_day, i, 0, first, second, third)
}

// The term's cells, in slices of the windows' lengths.
fn window_cells(
    term_day: &TermDay<'_>,
    first: &mut [i64],
    second: &mut [i64],
    third: &mut [i64],
    empty: i64,
    keep: &[i64],
    out: &mut [i64],
)
    requires term_day { (v : Moment) × IsTermDay term_day.now v }
    requires kind { is_windowed (node_at term_day.now).kind ≡ true }
    requires none { IsCell empty }
    requires first { length first.old ≡ window_size (node_at term_day.now) 0 }
    requires second { length second.old ≡ window_size (node_at term_day.now) 1 }
    requires third { length third.old ≡ window_size (node_at term_day.now) 2 }
    requires keep { length keep.now ≡ assets_at term_day.now }
    requires long { length out.old ≡ length keep.now }
    ensures { Shows (windowed_by term_day.now 0) empty keep.now out.new }
{
    for i in 0..out.len() {
        out[i] = window_cell(term_day, i, keep[i], empty, first, second, third);
    }
}

/// A formula or a filter over windows. The slices have room for its windows.
pub(crate) fn window_row(
    term_day: &TermDay<'_>,
    first: &mut [i64],
    second: &mut [i64],
    third: &mut [i64],
    empty: i64,
    keep: &[i64],
    out: &mut [i64],
)
    requires term_day { (v : Moment) × IsTermDay term_day.now v }
    requires kind { is_windowed (node_at term_day.now).kind ≡ true }
    requires none { empty ≡ empty_cell (pipeline_at term_day.now) term_day.now.term.0 }
    requires first { (node_at term_day.now).window ≤ length first.old }
    requires second { (node_at term_day.now).window ≤ length second.old }
    requires third { (node_at term_day.now).window ≤ length third.old }
    requires keep { IsKept term_day.now keep.now }
    requires long { length out.old ≡ assets_at term_day.now }
    ensures out { IsRowInEveryWorld term_day.now out.new }
    ensures first { length first.new ≡ length first.old }
    ensures second { length second.new ≡ length second.old }
    ensures third { length third.new ≡ length third.old }
{
    let first_size = size_of(term_day, 0);
    let second_size = size_of(term_day, 1);
    let third_size = size_of(term_day, 2);
    window_cells(
        term_day,
        &mut first[..first_size],
        &mut second[..second_size],
        &mut third[..third_size],
        empty,
        keep,
        out,
    );
}
