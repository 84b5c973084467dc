//! The value of a term for an asset on a session.
ghost use Rattle.std.specs.Prelude.{◌≡◌, ◌<◌, IfOk, OnOk, length, slice_get, Some};
ghost use Rattle.pl_pipeline.specs.Kind.{Kind};
ghost use Rattle.pl_spec.specs.Rounding.{IsCell};
ghost use Rattle.pl_terms.specs.Kinds.{kind_of};
ghost use Rattle.pl_terms.specs.Sorts.{is_windowed};
ghost use Rattle.pl_values.specs.Families.{is_label_test, is_point};
ghost use Rattle.pl_world.specs.Evaluations.{HasKind};
ghost use Rattle.pl_explain.specs.Given.{facts_in, own_facts, seen_facts_in, seen_value_in, sid_in, value_in, IsAskedAt, IsGiven, IsKeptAt, KeepsRowsOf};

use crate::basis::{Basis, node_in};
use crate::inputs::{input_stated, mask_stated, window_stated};
use crate::rows::Rows;
use crate::sections::section_stated;
use crate::views::{operand_view, window_view};
use pl_fixed::{Frequency, Memory};
use pl_terms::TermId;
use pl_values::{
    Family, empty_value, family_of, label_test_value, point_value, sids_value, window_value,
};
use pl_world::{exists, input_at, label_cell, number_cell};
use std::alloc::Global;

/// The value of a term for the asset in a column on a session, as it is seen from a later session where it is
/// from one, by the numbers of its premises, as arrays hold it; `None` where one of them has no number. `rows`
/// keeps the rows of cross-sections. The only error is want of memory.
pub(crate) fn value_stated(
    alloc: Global,
    basis: &Basis,
    rows: &mut Rows,
    t: TermId,
    col: usize,
    session: usize,
    view: Option<u32>,
) -> Result<Option<i64>, Memory>
    requires at { IsAskedAt basis.now col session }
    requires term { t.0 < length basis.now.checked.now.graph }
    requires rows { KeepsRowsOf basis.now rows.old }
    ensures given { IfOk result (IsGiven IsCell basis.now.stated.now
        (own_facts basis.now.world basis.now.checked.now t.0 (sid_in basis.now col) session view)
        (seen_value_in basis.now t.0 col session view)) }
    ensures rows { OnOk result (KeepsRowsOf basis.now rows.new) }
{
    let node = node_in(basis.checked, t);
    if !exists(&basis.world, col, session) {
        return Ok(Some(empty_value(basis.checked.graph(), t)));
    }
    match mask_stated(basis, node.mask, col, session) {
        None => Ok(None),
        Some(false) => Ok(Some(empty_value(basis.checked.graph(), t))),
        Some(true) => kept_stated(alloc, basis, rows, t, col, session, view),
    }
}

// What the kind gives where the asset is kept.
fn kept_stated(
    alloc: Global,
    basis: &Basis,
    rows: &mut Rows,
    t: TermId,
    col: usize,
    session: usize,
    view: Option<u32>,
) -> Result<Option<i64>, Memory>
    requires kept { IsKeptAt basis.now t.0 col session }
    requires rows { KeepsRowsOf basis.now rows.old }
    ensures given { IfOk result (IsGiven IsCell basis.now.stated.now
        (seen_facts_in basis.now t.0 col session view) (seen_value_in basis.now t.0 col session view)) }
    ensures rows { OnOk result (KeepsRowsOf basis.now rows.new) }
{
    let node = node_in(basis.checked, t);
    let world = &basis.world;
    match family_of(&node.kind) {
        Family::Constant(value) => Ok(Some(value)),
        Family::Label(name) => Ok(Some(label_cell(world, basis.checked, name, col, session))),
        Family::Number(figure, name) => {
            let checked = basis.checked;
            Ok(Some(number_cell(world, checked, figure, name, col, session)))
        }
        Family::Sids => Ok(Some(sids_value(&node.kind, world.assets.sid(col)))),
        Family::Window => over_windows(alloc, basis, t, col, session, view),
        Family::Point => Ok(over_operands(basis, t, col, session, view)),
        Family::LabelTest => Ok(over_label(basis, t, col, session)),
        Family::Section => section_stated(alloc, basis, rows, t, col, session),
        Family::Downsample(frequency) => Ok(over_period(basis, t, frequency, col, session)),
    }
}

// A formula over the windows of the inputs.
fn over_windows(
    alloc: Global,
    basis: &Basis,
    t: TermId,
    col: usize,
    session: usize,
    view: Option<u32>,
) -> Result<Option<i64>, Memory>
    requires kept { IsKeptAt basis.now t.0 col session }
    requires kind { HasKind basis.now.checked.now t.0 is_windowed }
    ensures { IfOk result (IsGiven IsCell basis.now.stated.now
        (seen_facts_in basis.now t.0 col session view) (seen_value_in basis.now t.0 col session view)) }
{
    let node = node_in(basis.checked, t);
    let size = node.window as usize;
    let from = window_view(&node.kind, view, session as u32);
    let first = input_at(node, 0);
    let Some(a) = window_stated(alloc, basis, first, size, col, session, from)? else {
        return Ok(None);
    };
    let second = input_at(node, 1);
    let Some(b) = window_stated(alloc, basis, second, size, col, session, from)? else {
        return Ok(None);
    };
    let third = input_at(node, 2);
    let Some(c) = window_stated(alloc, basis, third, size, col, session, from)? else {
        return Ok(None);
    };
    Ok(Some(window_value(&node.kind, &a, &b, &c)))
}

// An operation on the values of the session.
fn over_operands(
    basis: &Basis,
    t: TermId,
    col: usize,
    session: usize,
    view: Option<u32>,
) -> Option<i64>
    requires kept { IsKeptAt basis.now t.0 col session }
    requires kind { HasKind basis.now.checked.now t.0 is_point }
    ensures { IsGiven IsCell basis.now.stated.now (seen_facts_in basis.now t.0 col session view)
        (seen_value_in basis.now t.0 col session view) result }
{
    let node = node_in(basis.checked, t);
    let from = operand_view(&node.kind, view);
    let first = input_at(node, 0);
    let x = input_stated(basis, first, col, session, from)?;
    let second = input_at(node, 1);
    let y = input_stated(basis, second, col, session, from)?;
    let third = input_at(node, 2);
    let z = input_stated(basis, third, col, session, from)?;
    Some(point_value(&node.kind, x, y, z))
}

// A test of the label of the session.
fn over_label(basis: &Basis, t: TermId, col: usize, session: usize) -> Option<i64>
    requires kept { IsKeptAt basis.now t.0 col session }
    requires kind { HasKind basis.now.checked.now t.0 is_label_test }
    ensures { IsGiven IsCell basis.now.stated.now (facts_in basis.now t.0 col session)
        (value_in basis.now t.0 col session) result }
{
    let node = node_in(basis.checked, t);
    let first = input_at(node, 0);
    let code = input_stated(basis, first, col, session, None)?;
    Some(label_test_value(&node.kind, basis.world.labels, code))
}

// The input on the first session of the period.
fn over_period(
    basis: &Basis,
    t: TermId,
    frequency: Frequency,
    col: usize,
    session: usize,
) -> Option<i64>
    requires kept { IsKeptAt basis.now t.0 col session }
    requires kind { (n : _) → slice_get basis.now.checked.now.graph t.0 ≡ Some n
        → kind_of n.kind ≡ Kind.Downsample frequency }
    ensures { IsGiven IsCell basis.now.stated.now (facts_in basis.now t.0 col session)
        (value_in basis.now t.0 col session) result }
{
    let node = node_in(basis.checked, t);
    let start = basis.world.sessions.period_start(frequency, session);
    input_stated(basis, input_at(node, 0), col, start, None)
}
