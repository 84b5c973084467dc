//! Checking a derivation.
ghost use Rattle.std.specs.Prelude.{◌≡◌, ◌<◌, All, IfNone, IfOk, IfSome, None, Some, false, length, slice_get};
ghost use Rattle.std.specs.Option.{option_eq};
ghost use Rattle.std.specs.Ordering.{int_eq};
ghost use Rattle.std.specs.Cmp.Lexicographic.{pointwise};
ghost use Rattle.pl_spec.specs.Rounding.{IsCell};
ghost use Rattle.pl_derivation.specs.Laws.{IsTrueLine};
ghost use Rattle.pl_derivation.specs.Right as spec;
ghost use Rattle.pl_derivation.specs.Right.{has_sid};
ghost use Rattle.pl_terms.specs.Uses.{is_used};
ghost use Rattle.pl_derivation.specs.Lines.Line.{SeenLine};
ghost use Rattle.pl_derivation.specs.declared.line.Line.TheVariants.{SeenValue, Value};
ghost use Rattle.pl_derivation.specs.Listed.{line_of};
ghost use Rattle.pl_derivation.specs.Texts.{IsWritable};
ghost use Rattle.pl_world.specs.Worlds.{world_of, IsMade};
ghost use Rattle.pl_terms.specs.Checked.{pipeline_of};
ghost use Rattle.pl_explain.specs.Judging.{IsJudgement, IsPlace, IsTable, IsUsedTerm};

use crate::bars::seen_cells;
use crate::basis::{Basis, parts_are_ready};
use crate::fact::Fact;
use crate::fact_numbers::FactNumbers;
use crate::records::known_day;
use crate::rows::Rows;
use crate::value::value_stated;
use crate::views::is_steady;
use pl_derivation::{Derivation, Line, SeenValueLine, ValueLine};
use pl_fixed::{Column, MISSING, Memory, Steps};
use pl_terms::{Checked, TermId};
use pl_world::World;
use std::alloc::Global;
use std::sync::ledger::Ledger;

/// The number, from 1, of the first line that is not right: where its days are sessions, its sid is known,
/// its term is used, what is seen from a session is of an earlier one and may be another there, each premise
/// is in an earlier line, its number is what one step gives over the numbers of these, and beside the number
/// of a record is that record's day. `None` where all lines are right. The only error is want of memory.
pub fn first_wrong<L: Ledger>(
    alloc: Global,
    world: &World,
    checked: &Checked,
    derivation: &Derivation,
    steps: &mut Steps<L>,
) -> Result<Option<u32>, Memory>
    requires made { IsMade world.now }
    ensures exact { IfOk result (λ r. r
        ≡ spec.first_wrong (world_of world.now) (pipeline_of checked.now) derivation.now) }
    // Where no line is wrong, each states the truth: its last cell is the bar's as it is seen, and its value
    // the term's.
    ensures truth { IfOk result (λ r. r ≡ None → (i : _) → (l : _) → slice_get derivation.now i ≡ Some l
        → IsTrueLine (world_of world.now) (pipeline_of checked.now) l) }
{
    parts_are_ready(world, checked);
    let mut stated = FactNumbers::new(alloc);
    let mut rows = Rows::new(alloc);
    for i in 0..derivation.len() {
        let line = derivation.line(i);
        if !is_right(alloc, world, checked, &mut stated, &mut rows, line, steps)? {
            return Ok(Some(i as u32 + 1));
        }
    }
    Ok(None)
}

// Whether a line is right after those whose facts are stated; its own is stated then.
fn is_right<L: Ledger>(
    alloc: Global,
    world: &World,
    checked: &Checked,
    stated: &mut FactNumbers,
    rows: &mut Rows,
    line: &Line,
    steps: &mut Steps<L>,
) -> Result<bool, Memory>
    requires table { IsTable world.now checked.now stated.old rows.old }
    requires writable { IsWritable (line_of line.now) }
    ensures { IfOk result
        (IsJudgement world.now checked.now (line_of line.now) stated.old stated.new rows.new) }
{
    match line {
        Line::Seen {
            column,
            sid,
            bar_day,
            day,
            cells,
        } => {
            let seen = SeenBar {
                column: *column,
                sid: *sid,
                bar_day: *bar_day,
                day: *day,
                cells: cells.as_slice(),
            };
            is_right_bar(alloc, world, checked, stated, rows, &seen, steps)
        }
        Line::Value(value) => is_right_value(alloc, world, checked, stated, rows, value),
        Line::SeenValue(value) => is_right_seen(alloc, world, checked, stated, rows, value),
    }
}

// What a line says of a bar: its cells, one for each event, as they are seen on a later day.
#[derive(Clone, Copy)]
struct SeenBar<'a> {
    column: Column,
    sid: u32,
    bar_day: i32,
    day: i32,
    cells: &'a [i64],
}

// The same of a bar as it is seen on a later session.
fn is_right_bar<L: Ledger>(
    alloc: Global,
    world: &World,
    checked: &Checked,
    stated: &mut FactNumbers,
    rows: &Rows,
    line: &SeenBar<'_>,
    steps: &mut Steps<L>,
) -> Result<bool, Memory>
    requires table { IsTable world.now checked.now stated.old rows.now }
    ensures { IfOk result (IsJudgement world.now checked.now
        (SeenLine line.now.column line.now.sid line.now.bar_day line.now.day line.now.cells.now)
        stated.old stated.new rows.now) }
{
    let Some(col) = col_of(world, line.sid) else {
        return Ok(false);
    };
    let Some(bar) = world.sessions.index_of(line.bar_day) else {
        return Ok(false);
    };
    let Some(session) = world.sessions.index_of(line.day) else {
        return Ok(false);
    };
    if bar >= session {
        return Ok(false);
    }
    let seen = seen_cells(alloc, world, line.column, col, bar, session, steps)?;
    if !same_cells(line.cells, &seen) {
        return Ok(false);
    }
    let fact = Fact::Seen {
        column: line.column,
        sid: line.sid,
        bar: bar as u32,
        session: session as u32,
    };
    stated.insert(fact, last_of(&seen))?;
    Ok(true)
}

// The same of a value. Where something is stated of its fact, the number and the record's day alone decide.
fn is_right_value(
    alloc: Global,
    world: &World,
    checked: &Checked,
    stated: &mut FactNumbers,
    rows: &mut Rows,
    line: &ValueLine,
) -> Result<bool, Memory>
    requires table { IsTable world.now checked.now stated.old rows.old }
    requires cell { IsCell line.now.value }
    ensures { IfOk result (IsJudgement world.now checked.now (line_of (Value line.now))
        stated.old stated.new rows.new) }
{
    let Some(col) = col_of(world, line.sid) else {
        return Ok(false);
    };
    let Some(session) = world.sessions.index_of(line.day) else {
        return Ok(false);
    };
    let Some(t) = used_term(checked, line.term) else {
        return Ok(false);
    };
    if !same_day(line.known, known_day(world, checked, t, col, session)) {
        return Ok(false);
    }
    let fact = Fact::TermValue {
        term: t.0,
        sid: line.sid,
        session: session as u32,
    };
    if let Some(number) = stated.number(fact) {
        return Ok(same_number(line.value, number));
    }
    let basis = Basis {
        world: *world,
        checked,
        stated,
    };
    let Some(number) = value_stated(alloc, &basis, rows, t, col, session, None)? else {
        return Ok(false);
    };
    if !same_number(line.value, number) {
        return Ok(false);
    }
    stated.insert(fact, line.value)?;
    Ok(true)
}

// The same of a value as it is seen from a later session.
fn is_right_seen(
    alloc: Global,
    world: &World,
    checked: &Checked,
    stated: &mut FactNumbers,
    rows: &mut Rows,
    line: &SeenValueLine,
) -> Result<bool, Memory>
    requires table { IsTable world.now checked.now stated.old rows.old }
    requires cell { IsCell line.now.value }
    ensures { IfOk result (IsJudgement world.now checked.now (line_of (SeenValue line.now))
        stated.old stated.new rows.new) }
{
    let Some(col) = col_of(world, line.sid) else {
        return Ok(false);
    };
    let Some(session) = world.sessions.index_of(line.own_day) else {
        return Ok(false);
    };
    let Some(view) = world.sessions.index_of(line.day) else {
        return Ok(false);
    };
    let Some(t) = used_term(checked, line.term) else {
        return Ok(false);
    };
    if session >= view {
        return Ok(false);
    }
    if is_steady(checked, t) {
        return Ok(false);
    }
    let basis = Basis {
        world: *world,
        checked,
        stated,
    };
    let seen = value_stated(alloc, &basis, rows, t, col, session, Some(view as u32))?;
    let Some(found) = seen else {
        return Ok(false);
    };
    if !same_number(line.value, found) {
        return Ok(false);
    }
    let fact = Fact::SeenValue {
        term: t.0,
        sid: line.sid,
        session: session as u32,
        view: view as u32,
    };
    stated.insert(fact, line.value)?;
    Ok(true)
}

fn same_number(a: i64, b: i64) -> bool
    ensures { result ≡ int_eq a b }
{
    a == b
}

fn same_day(a: Option<i32>, b: Option<i32>) -> bool
    ensures { result ≡ option_eq int_eq a b }
{
    a == b
}

fn same_cells(a: &[i64], b: &[i64]) -> bool
    ensures { result ≡ pointwise int_eq a.now b.now }
{
    a == b
}

pub(crate) fn last_of(cells: &[i64]) -> i64
    ensures { result ≡ spec.last_cell cells.now }
{
    cells.iter().fold(MISSING, |_, cell| *cell)
}

// The column of a sid.
pub(crate) fn col_of(world: &World, sid: u32) -> Option<usize>
    ensures some { IfSome result (λ col. IsPlace world.now sid col) }
    ensures none { IfNone result (has_sid (world_of world.now) sid ≡ false) }
{
    world.assets.col_of(sid)
}

// The used term of a number.
fn used_term(checked: &Checked, term: u32) -> Option<TermId>
    ensures some { IfSome result (λ t. IsUsedTerm checked.now term t.0) }
    ensures none { IfNone result (is_used (pipeline_of checked.now) term ≡ false) }
{
    let graph = checked.graph();
    if term as usize >= graph.len() {
        return None;
    }
    let t = TermId(term as u8);
    if checked.is_used(t) { Some(t) } else { None }
}
