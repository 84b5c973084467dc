//! Earlier cells of a term, computed anew as they are seen on the day.
ghost use Rattle.std.specs.Prelude.{◌≡◌, ◌<◌, ◌≤◌, true, false, length, slice_get, All};
ghost use Rattle.pl_spec.specs.Rounding.{IsCell};
ghost use Rattle.pl_pipeline.specs.Kind.{PointKind};
ghost use Rattle.pl_pipeline.specs.Kind.Kind.{Point};
ghost use Rattle.pl_pipeline.specs.Value.{keeps_point};
ghost use Rattle.pl_terms.specs.Sorts.{is_windowed};
ghost use Rattle.pl_values.specs.Views.{keeps_kind};
ghost use Rattle.pl_daily.specs.Changes.{IsRing};
ghost use Rattle.pl_daily.specs.Rows.{capacity_of};
ghost use Rattle.pl_daily.specs.TermDays.{IsTermDay, Moment, HoldsRings, HoldsWindows, assets_at, earlier_cell};
ghost use Rattle.pl_daily.specs.TermDays.{node_at};
ghost use Rattle.pl_daily.specs.Earlier.{IsHeldBack, IsReadBack, IsRenewed, IsSeenGiven, IsSeenOperand};
ghost use Rattle.pl_daily.specs.Earlier as spec;
ghost use Rattle.pl_daily.specs.Windows.{windowed_by};

use crate::term_day::TermDay;
use crate::windows::{size_of, window_back};
use circular_buffer::HeapCircularBuffer;
use pl_fixed::MISSING;
use pl_pointwise::pointwise;
use pl_terms::{Input, TermId};
use pl_values::{Family, empty_value, family_of, input_at, is_one, kind_of, mask_of};

// The cell of a term's ring of the session that is so many before the day, as it is seen on the day.
fn cell_back(term_day: &TermDay<'_>, term: TermId, i: usize, after: usize) -> i64
    requires held { (v : Moment) × HoldsRings term_day.now v term.0 }
    requires long { after < capacity_of (slice_get term_day.now.terms.now term.0) }
    requires asset { i < assets_at term_day.now }
    ensures value { (v : Moment) → HoldsRings term_day.now v term.0
        → result ≡ earlier_cell term_day.now v term.0 i after }
    ensures cell { IsCell result }
{
    match term_day.terms[term.0 as usize].rings.rings[i].nth_back(after) {
        Some(cell) => *cell,
        None => MISSING,
    }
}

// That of the input in a place that is a term.
fn operand_back(term_day: &TermDay<'_>, place: usize, i: usize, after: usize) -> i64
    requires held { (v : Moment) × IsTermDay term_day.now v × HoldsWindows term_day.now v after }
    requires asset { i < assets_at term_day.now }
    ensures value { (v : Moment) → HoldsWindows term_day.now v after
        → IsSeenOperand term_day.now v place i after result }
    ensures cell { IsCell result }
{
    match input_at(term_day.node, place) {
        Some(Input::Term(term)) => cell_back(term_day, term, i, after),
        _ => MISSING,
    }
}

// An operation that moves, over one cell of each operand.
fn point_back(term_day: &TermDay<'_>, i: usize, after: usize) -> i64
    requires held { (v : Moment) × IsTermDay term_day.now v × HoldsWindows term_day.now v after }
    requires kind { (f : PointKind) × ((node_at term_day.now).kind ≡ Point f) × (keeps_point f ≡ false) }
    requires asset { i < assets_at term_day.now }
    ensures value { (v : Moment) → IsTermDay term_day.now v → HoldsWindows term_day.now v after
        → IsSeenGiven term_day.now v i after result }
    ensures cell { IsCell result }
{
    let first = operand_back(term_day, 0, i, after);
    let second = operand_back(term_day, 1, i, after);
    let third = operand_back(term_day, 2, i, after);
    let mut out = [0];
    pointwise(
        kind_of(term_day.node),
        &[first],
        &[second],
        &[third],
        &mut out,
    );
    out[0]
}

// A formula over windows that end so many sessions before the day. The slices have room for them.
fn formula_back(
    term_day: &TermDay<'_>,
    i: usize,
    after: usize,
    first: &mut [i64],
    second: &mut [i64],
    third: &mut [i64],
) -> i64
    requires held { (v : Moment) × IsTermDay term_day.now v × HoldsWindows term_day.now v after }
    requires kind { is_windowed (node_at term_day.now).kind ≡ true }
    requires asset { i < assets_at term_day.now }
    requires first { (node_at term_day.now).window ≤ length first.old }
    requires second { (node_at term_day.now).window ≤ length second.old }
    requires third { (node_at term_day.now).window ≤ length third.old }
    ensures value { result ≡ windowed_by term_day.now after i }
    ensures cell { IsCell result }
    ensures first { length first.new ≡ length first.old }
    ensures second { length second.new ≡ length second.old }
    ensures third { length third.new ≡ length third.old }
{
    let first_size = size_of(term_day, 0);
    let second_size = size_of(term_day, 1);
    let third_size = size_of(term_day, 2);
    window_back(
        term_day,
        i,
        after,
        &mut first[..first_size],
        &mut second[..second_size],
        &mut third[..third_size],
    )
}

// Whether the asset lives on the session that is so many before the day, before which `fed` days were.
fn lives_back(term_day: &TermDay<'_>, i: usize, fed: usize, after: usize) -> bool
    requires held { (v : Moment) × IsHeldBack term_day.now v fed after }
    requires asset { i < assets_at term_day.now }
    ensures early { fed < after → result ≡ false }
    ensures lives { (v : Moment) → after ≤ fed → IsHeldBack term_day.now v fed after
        → result ≡ spec.lives_back term_day.now v i after }
{
    if after > fed {
        return false;
    }
    match term_day.bars.calendar.nth_back(after) {
        Some(day) => term_day.assets.exists(i, *day),
        None => false,
    }
}

// Whether it passes the term's mask there.
fn passes_back(term_day: &TermDay<'_>, i: usize, fed: usize, after: usize) -> bool
    requires held { (v : Moment) × IsTermDay term_day.now v × IsHeldBack term_day.now v fed after }
    requires asset { i < assets_at term_day.now }
    ensures { (v : Moment) → IsTermDay term_day.now v → after ≤ fed → IsHeldBack term_day.now v fed after
        → result ≡ spec.passes_back term_day.now v i after }
{
    match mask_of(term_day.node) {
        Some(mask) => is_one(cell_back(term_day, mask, i, after)),
        None => true,
    }
}

// Whether the term keeps it there.
fn is_kept_back(term_day: &TermDay<'_>, i: usize, fed: usize, after: usize) -> bool
    requires held { (v : Moment) × IsTermDay term_day.now v × IsHeldBack term_day.now v fed after }
    requires asset { i < assets_at term_day.now }
    ensures early { fed < after → result ≡ false }
    ensures kept { (v : Moment) → IsTermDay term_day.now v → after ≤ fed
        → IsHeldBack term_day.now v fed after → result ≡ spec.keeps_back term_day.now v i after }
{
    lives_back(term_day, i, fed, after) && passes_back(term_day, i, fed, after)
}

// What the term is seen as from the day there. The slices have room for its windows.
fn seen_back(
    term_day: &TermDay<'_>,
    i: usize,
    fed: usize,
    after: usize,
    first: &mut [i64],
    second: &mut [i64],
    third: &mut [i64],
) -> i64
    requires held { (v : Moment) × IsTermDay term_day.now v × IsHeldBack term_day.now v fed after }
    requires moves { keeps_kind (node_at term_day.now).kind ≡ false }
    requires asset { i < assets_at term_day.now }
    requires first { (node_at term_day.now).window ≤ length first.old }
    requires second { (node_at term_day.now).window ≤ length second.old }
    requires third { (node_at term_day.now).window ≤ length third.old }
    ensures value { (v : Moment) → IsTermDay term_day.now v → IsHeldBack term_day.now v fed after
        → result ≡ earlier_cell term_day.now v term_day.now.term.0 i after }
    ensures cell { IsCell result }
    ensures first { length first.new ≡ length first.old }
    ensures second { length second.new ≡ length second.old }
    ensures third { length third.new ≡ length third.old }
{
    if !is_kept_back(term_day, i, fed, after) {
        return empty_value(term_day.checked.graph(), term_day.term);
    }
    match family_of(kind_of(term_day.node)) {
        Family::Window => formula_back(term_day, i, after, first, second, third),
        _ => point_back(term_day, i, after),
    }
}

// Puts into the cells of a ring what the term is seen as from the day on the sessions before it. The newest
// cell, which is the day's own, stays.
fn renew_cells(
    term_day: &TermDay<'_>,
    i: usize,
    fed: usize,
    first: &mut [i64],
    second: &mut [i64],
    third: &mut [i64],
    cells: &mut [i64],
)
    requires held { (v : Moment) × IsTermDay term_day.now v
        × IsReadBack term_day.now v fed (length cells.old) }
    requires moves { keeps_kind (node_at term_day.now).kind ≡ false }
    requires asset { i < assets_at term_day.now }
    requires first { (node_at term_day.now).window ≤ length first.old }
    requires second { (node_at term_day.now).window ≤ length second.old }
    requires third { (node_at term_day.now).window ≤ length third.old }
    requires cells { All IsCell cells.old }
    ensures long { length cells.new ≡ length cells.old }
    ensures cells { All IsCell cells.new }
    ensures renewed { IsRenewed term_day.now fed i cells.old cells.new }
    ensures first { length first.new ≡ length first.old }
    ensures second { length second.new ≡ length second.old }
    ensures third { length third.new ≡ length third.old }
{
    let newest = cells.len().saturating_sub(1);
    for place in 0..newest {
        cells[place] = seen_back(term_day, i, fed, newest - place, first, second, third);
    }
}

/// The same of a ring. It takes no memory.
pub(crate) fn renew_ring(
    term_day: &TermDay<'_>,
    i: usize,
    fed: usize,
    first: &mut [i64],
    second: &mut [i64],
    third: &mut [i64],
    ring: &mut HeapCircularBuffer<i64>,
)
    requires held { (v : Moment) × IsTermDay term_day.now v
        × IsReadBack term_day.now v fed (length ring.old.items) }
    requires moves { keeps_kind (node_at term_day.now).kind ≡ false }
    requires asset { i < assets_at term_day.now }
    requires first { (node_at term_day.now).window ≤ length first.old }
    requires second { (node_at term_day.now).window ≤ length second.old }
    requires third { (node_at term_day.now).window ≤ length third.old }
    requires ring { IsRing (length ring.old.items) ring.old }
    ensures ring { IsRing (length ring.old.items) ring.new }
    ensures renewed { IsRenewed term_day.now fed i ring.old.items ring.new.items }
    ensures first { length first.new ≡ length first.old }
    ensures second { length second.new ≡ length second.old }
    ensures third { length third.new ≡ length third.old }
{
    renew_cells(
        term_day,
        i,
        fed,
        first,
        second,
        third,
        ring.make_contiguous(),
    );
}
