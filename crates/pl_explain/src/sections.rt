//! Cross-sections over what is stated.
ghost use Rattle.std.specs.Prelude.{◌≡◌, ◌<◌, All, IfNone, IfOk, IfSome, OnOk, false, flat_map, length, map, option_map, pos, slice_get, Some};
ghost use Rattle.pl_spec.specs.Rounding.{IsCell};
ghost use Rattle.pl_spec.specs.World.{living_sids};
ghost use Rattle.pl_cross.specs.Section.{is_section};
ghost use Rattle.pl_terms.specs.Checked.{pipeline_of};
ghost use Rattle.pl_terms.specs.Nodes.{node_of, number_of};
ghost use Rattle.pl_derivation.specs.Facts.{entry_facts, number_facts};
ghost use Rattle.pl_derivation.specs.Facts.Fact.{TermValue};
ghost use Rattle.pl_world.specs.Worlds.{world_of};
ghost use Rattle.pl_world.specs.Evaluations.{HasKind, optional_row_in, row_in};
ghost use Rattle.pl_explain.specs.Given.{facts_in, has_all, living_facts, sid_in, value_in, HasRow, IsAskedAt, IsAskedOn, IsGiven, IsKeptAt, IsKeptRow, KeepsAll, KeepsRowsOf};

use crate::basis::{Basis, node_in};
use crate::inputs::term_stated;
use crate::rows::Rows;
use pl_fixed::Memory;
use pl_terms::TermId;
use pl_values::empty_value;
use pl_world::{SectionRows, exists, section_input, section_row};
use std::alloc::Global;

/// The cell of a cross-section, by what is stated of all assets. The row of a term and a session is computed
/// once.
pub(crate) fn section_stated(
    alloc: Global,
    basis: &Basis,
    rows: &mut Rows,
    t: TermId,
    col: usize,
    session: usize,
) -> Result<Option<i64>, Memory>
    requires kept { IsKeptAt basis.now t.0 col session }
    requires rows { KeepsRowsOf basis.now rows.old }
    requires kind { HasKind basis.now.checked.now t.0 is_section }
    ensures given { IfOk result (IsGiven IsCell basis.now.stated.now (facts_in basis.now t.0 col session)
        (value_in basis.now t.0 col session)) }
    ensures rows { OnOk result (KeepsRowsOf basis.now rows.new) }
    ensures kept { IfOk result (λ o. IfSome o (λ _. HasRow t.0 session rows.new)) }
    ensures stays { OnOk result (KeepsAll rows.old rows.new) }
{
    if let Some(row) = rows.row(t.0, session as u32) {
        return Ok(Some(row[col]));
    }
    match whole_row(alloc, basis, t, session)? {
        None => Ok(None),
        Some(row) => {
            let cell = row[col];
            rows.keep(t.0, session as u32, row)?;
            Ok(Some(cell))
        }
    }
}

// The row of a cross-section, where all that it rests on is stated.
fn whole_row(
    alloc: Global,
    basis: &Basis,
    t: TermId,
    session: usize,
) -> Result<Option<Vec<i64>>, Memory>
    requires on { IsAskedOn basis.now session }
    requires term { t.0 < length basis.now.checked.now.graph }
    requires kind { HasKind basis.now.checked.now t.0 is_section }
    ensures row { IfOk result (λ o. IfSome o (λ v. IsKeptRow
        basis.now.world basis.now.checked.now basis.now.stated.now t.0 session v.items)) }
    ensures none { IfOk result (λ o. IfNone o ((n : _) → slice_get basis.now.checked.now.graph t.0 ≡ Some n
        → has_all basis.now.stated.now (flat_map (entry_facts (pipeline_of basis.now.checked.now).graph
        (node_of n) (pos session)) (living_sids (world_of basis.now.world) (pos session))) ≡ false)) }
{
    let node = node_in(basis.checked, t);
    let input = section_input(basis.checked, t);
    let Some(values) = row_stated(alloc, basis, input, session)? else {
        return Ok(None);
    };
    let Some(mask) = optional_row_stated(alloc, basis, node.mask, session)? else {
        return Ok(None);
    };
    let Some(groups) = optional_row_stated(alloc, basis, node.group, session)? else {
        return Ok(None);
    };
    let rows = SectionRows {
        values: &values,
        mask: &mask,
        groups: &groups,
    };
    Ok(Some(section_row(alloc, &basis.world, basis.checked, t, session, &rows)?))
}

// The cells of a term for all assets, by what is stated of those that exist.
fn row_stated(
    alloc: Global,
    basis: &Basis,
    u: TermId,
    session: usize,
) -> Result<Option<Vec<i64>>, Memory>
    requires on { IsAskedOn basis.now session }
    requires term { u.0 < length basis.now.checked.now.graph }
    ensures { IfOk result (λ o. IsGiven (All IsCell) basis.now.stated.now
        (map (λ b. TermValue u.0 b (pos session)) (living_sids (world_of basis.now.world) (pos session)))
        (row_in basis.now.world basis.now.checked.now u.0 session) (option_map (λ v. v.items) o)) }
{
    let mut row = Vec::new(alloc);
    for col in 0..basis.world.assets.len() {
        match cell_stated(basis, u, col, session) {
            None => return Ok(None),
            Some(cell) => row.push(cell)?,
        }
    }
    Ok(Some(row))
}

// What is stated of a term for an asset that exists; of another the value is the empty one.
fn cell_stated(basis: &Basis, u: TermId, col: usize, session: usize) -> Option<i64>
    requires at { IsAskedAt basis.now col session }
    requires term { u.0 < length basis.now.checked.now.graph }
    ensures { IsGiven IsCell basis.now.stated.now
        (living_facts (world_of basis.now.world) u.0 (sid_in basis.now col) (pos session))
        (value_in basis.now u.0 col session) result }
{
    if exists(&basis.world, col, session) {
        term_stated(basis, u, col, session)
    } else {
        Some(empty_value(basis.checked.graph(), u))
    }
}

// The cells of a mask or a group for all assets, as it is stated.
fn optional_row_stated(
    alloc: Global,
    basis: &Basis,
    u: Option<TermId>,
    session: usize,
) -> Result<Option<Option<Vec<i64>>>, Memory>
    requires on { IsAskedOn basis.now session }
    requires term { IfSome u (λ u. u.0 < length basis.now.checked.now.graph) }
    ensures { IfOk result (λ o. IsGiven (λ r. IfSome r (All IsCell)) basis.now.stated.now
        (flat_map (λ b. number_facts b (pos session) (option_map number_of u))
        (living_sids (world_of basis.now.world) (pos session)))
        (optional_row_in basis.now.world basis.now.checked.now u session)
        (option_map (option_map (λ v. v.items)) o)) }
{
    let Some(u) = u else {
        return Ok(Some(None));
    };
    match row_stated(alloc, basis, u, session)? {
        None => Ok(None),
        Some(row) => Ok(Some(Some(row))),
    }
}
