//! The derivation of a value.
ghost use Rattle.std.specs.Prelude.{◌≡◌, ◌<◌, ◌≤◌, ◌≤ℤ◌, ◌∷◌, [], ◌+◌, IfErr, IfOk, IsTrue, OnOk, false, length, map, pos, true};
ghost use Rattle.pl_spec.specs.Limits.{most_lines};
ghost use Rattle.pl_pipeline.specs.Graph.{reach};
ghost use Rattle.pl_spec.specs.Parts.{sid_at};
ghost use Rattle.pl_spec.specs.Rounding.{IsCell};
ghost use Rattle.pl_pipeline.specs.Term.{term_at};
ghost use Rattle.pl_spec.specs.World.{exists};
ghost use Rattle.pl_cross.specs.Section.{is_section};
ghost use Rattle.pl_derivation.specs.Facts.{value_fact};
ghost use Rattle.pl_derivation.specs.Facts.Fact.{Seen, TermValue};
ghost use Rattle.pl_derivation.specs.Texts.{IsWritable};
ghost use Rattle.pl_world.specs.Views.{seen_in, view_at};
ghost use Rattle.pl_derivation.specs.Laws.{IsDerivation};
ghost use Rattle.pl_derivation.specs.Lean.{IsLean};
ghost use Rattle.pl_derivation.specs.Walks.{depth_of, derivation, facts_for, line_for};
ghost use Rattle.pl_spec.proofs.Each.{Each};
ghost use Rattle.pl_derivation.specs.Listed.{line_of};
ghost use Rattle.pl_world.specs.Worlds.{world_of, IsMade};
ghost use Rattle.pl_world.specs.Evaluations.{HasKind};
ghost use Rattle.pl_terms.specs.Checked.{pipeline_of};
ghost use Rattle.pl_terms.specs.Nodes.{graph_of};
ghost use Rattle.pl_terms.specs.Uses.{is_used};
ghost use Rattle.pl_explain.specs.Given.{facts_read, has, has_all, own_facts, HasRow, IsReady, KeepsRows};
ghost use Rattle.pl_explain.specs.Keys.{fact_of};
ghost use Rattle.pl_derivation.specs.declared.error.ExplainError.TheVariants.{TooLong};
ghost use Rattle.pl_explain.specs.Walking.{MayBeDerived, CanBeDerivedWithin, IsPut, IsWalkTo, HoldsSoFar};

use crate::bars::seen_cells;
use crate::basis::{Basis, node_in, parts_are_ready};
use crate::fact::{Fact, value_fact};
use crate::fact_numbers::FactNumbers;
use crate::inputs::mask_stated;
use crate::judge::{col_of, last_of};
use crate::reads::{facts_read, mask_read};
use crate::records::known_day;
use crate::rows::Rows;
use crate::value::value_stated;
use pl_derivation::{
    CellList, Derivation, ExplainError, Line, MOST_LINES, SeenValueLine, ValueLine,
};
use pl_fixed::{Column, Memory, Steps};
use pl_terms::{Checked, TermId};
use pl_values::{Family, family_of};
use pl_world::laws::parts_make_a_world;
use pl_world::{World, exists};
use std::alloc::Global;
use std::sync::ledger::Ledger;

// What a derivation is drawn from, and where its memory comes from.
#[derive(Clone, Copy)]
struct Source<'a> {
    alloc: Global,
    world: World<'a>,
    checked: &'a Checked,
}

// What is finished so far: the number of each fact, found by it, and its line.
#[derive(Drop)]
struct Walk {
    stated: FactNumbers,
    rows: Rows,
    lines: Vec<Line>,
}

/// The derivation of the value of a term for the asset in a column on a session: a line for each of the facts
/// that it rests on, each once, in the order in which a walk through the premises first finishes them, its
/// own last. The error is `TooLong` where these are more than 100,000, or want of memory. Derivations are
/// this project's own.
pub fn explain_cell<L: Ledger>(
    alloc: Global,
    world: &World,
    checked: &Checked,
    t: TermId,
    col: usize,
    session: usize,
    steps: &mut Steps<L>,
) -> Result<Derivation, ExplainError>
    requires made { IsMade world.now }
    requires used { is_used (pipeline_of checked.now) t.0 ≡ true }
    requires col { col < length world.now.assets.now }
    requires session { session < length world.now.sessions.now }
    requires reach { pos 0 ≤ℤ reach world.now.sessions.now
        (term_at (graph_of checked.now.graph) t.0) (pos session) }
    ensures exact { IfOk result (λ d. d ≡ derivation (world_of world.now) (pipeline_of checked.now) t.0
        (sid_at world.now.assets.now col) (pos session)) }
    ensures few { IfOk result (λ d. length d ≤ most_lines) }
    ensures long { IfErr result (λ e. e ≡ TooLong → most_lines < length (facts_for (world_of world.now)
        (pipeline_of checked.now) (TermValue t.0 (sid_at world.now.assets.now col) (pos session)))) }
    // No line of it is wrong, no fact stands in it twice, and its last line states the value.
    ensures right { IfOk result (IsDerivation (world_of world.now) (pipeline_of checked.now) t.0
        (sid_at world.now.assets.now col) session) }
    // What a line rests on stands before it, and each line but the last is what a later one rests on.
    ensures lean { IfOk result (IsLean (world_of world.now) (pipeline_of checked.now)) }
{
    parts_are_ready(world, checked);
    parts_make_a_world(world);
    let fact = Fact::TermValue {
        term: t.0,
        sid: world.assets.sid(col),
        session: session as u32,
    };
    let mut walk = Walk {
        stated: FactNumbers::new(alloc),
        rows: Rows::new(alloc),
        lines: Vec::new(alloc),
    };
    let source = Source {
        alloc,
        world: *world,
        checked,
    };
    finish(&source, &mut walk, fact, steps)?;
    Ok(Derivation::of(walk.lines))
}

// Finishes a fact, where it is not finished yet.
#[cycle(walk)]
fn finish<L: Ledger>(
    source: &Source<'_>,
    walk: &mut Walk,
    fact: Fact,
    steps: &mut Steps<L>,
) -> Result<(), ExplainError>
    requires stands { HoldsSoFar source.now.world source.now.checked.now walk.old }
    requires fact { MayBeDerived source.now.world source.now.checked.now (fact_of fact) }
    ensures { IsWalkTo source.now.world source.now.checked.now (depth_of (fact_of fact)) (fact_of fact ∷ [])
        walk.old walk.new result }
{
    if walk.stated.number(fact).is_some() {
        return Ok(());
    }
    match fact {
        Fact::Seen {
            column,
            sid,
            bar,
            session,
        } => finish_bar(source, walk, column, sid, bar, session, steps),
        Fact::TermValue { term, sid, session } => {
            finish_value(source, walk, term, sid, session, None, steps)
        }
        Fact::SeenValue {
            term,
            sid,
            session,
            view,
        } => finish_value(source, walk, term, sid, session, Some(view), steps),
    }
}

// Finishes what a term reads, in order.
#[cycle(walk)]
fn finish_all<L: Ledger>(
    source: &Source<'_>,
    walk: &mut Walk,
    t: TermId,
    facts: &[Fact],
    steps: &mut Steps<L>,
) -> Result<(), ExplainError>
    requires stands { HoldsSoFar source.now.world source.now.checked.now walk.old }
    requires facts { Each (CanBeDerivedWithin source.now.world source.now.checked.now (t.0 + 1))
        (map fact_of facts.now) }
    ensures { IsWalkTo source.now.world source.now.checked.now (t.0 + 1) (map fact_of facts.now)
        walk.old walk.new result }
{
    for fact in facts {
        finish(source, walk, *fact, steps)?;
    }
    Ok(())
}

// Finishes a value, as it is seen from a later session where it is from one, after its premises.
#[cycle(walk)]
fn finish_value<L: Ledger>(
    source: &Source<'_>,
    walk: &mut Walk,
    term: u8,
    sid: u32,
    session: u32,
    view: Option<u32>,
    steps: &mut Steps<L>,
) -> Result<(), ExplainError>
    requires stands { HoldsSoFar source.now.world source.now.checked.now walk.old }
    requires fact { MayBeDerived source.now.world source.now.checked.now
        (value_fact term sid (pos session) (view_at view)) }
    requires fresh { has walk.old.stated (value_fact term sid (pos session) (view_at view)) ≡ false }
    ensures { IsWalkTo source.now.world source.now.checked.now (term + 2)
        (value_fact term sid (pos session) (view_at view) ∷ []) walk.old walk.new result }
{
    let Some(col) = col_of(&source.world, sid) else {
        unreachable!();
    };
    let t = TermId(term);
    finish_premises(source, walk, t, col, session as usize, view, steps)?;
    let value = value_now(source, walk, t, col, session as usize, view)?;
    let line = value_line(source, t, col, session as usize, view, value);
    put(walk, value_fact(term, sid, session, view), value, line)
}

// The line of a value.
fn value_line(
    source: &Source<'_>,
    t: TermId,
    col: usize,
    session: usize,
    view: Option<u32>,
    value: i64,
) -> Line
    requires ready { IsReady source.now.world source.now.checked.now }
    requires col { col < length source.now.world.assets.now }
    requires fact { MayBeDerived source.now.world source.now.checked.now
        (value_fact t.0 (sid_at source.now.world.assets.now col) (pos session) (view_at view)) }
    requires value { value ≡ seen_in source.now.world source.now.checked.now t.0 view
        (sid_at source.now.world.assets.now col) session }
    requires cell { IsCell value }
    ensures line { line_of result ≡ line_for (world_of source.now.world) (pipeline_of source.now.checked.now)
        (value_fact t.0 (sid_at source.now.world.assets.now col) (pos session) (view_at view)) }
    ensures writable { IsWritable (line_of result) }
{
    let sid = source.world.assets.sid(col);
    let day = source.world.sessions.day(session);
    match view {
        None => Line::Value(ValueLine {
            term: t.0 as u32,
            sid,
            day,
            value,
            known: known_day(&source.world, source.checked, t, col, session),
        }),
        Some(view) => Line::SeenValue(SeenValueLine {
            term: t.0 as u32,
            sid,
            own_day: day,
            day: source.world.sessions.day(view as usize),
            value,
        }),
    }
}

// Finishes the premises of a value: the mask, and where the asset passes it what the kind reads.
#[cycle(walk)]
fn finish_premises<L: Ledger>(
    source: &Source<'_>,
    walk: &mut Walk,
    t: TermId,
    col: usize,
    session: usize,
    view: Option<u32>,
    steps: &mut Steps<L>,
) -> Result<(), ExplainError>
    requires stands { HoldsSoFar source.now.world source.now.checked.now walk.old }
    requires col { col < length source.now.world.assets.now }
    requires session { session < length source.now.world.sessions.now }
    requires fact { MayBeDerived source.now.world source.now.checked.now
        (value_fact t.0 (sid_at source.now.world.assets.now col) (pos session) (view_at view)) }
    ensures { IsWalkTo source.now.world source.now.checked.now (t.0 + 1)
        (own_facts source.now.world source.now.checked.now t.0
        (sid_at source.now.world.assets.now col) session view) walk.old walk.new result }
{
    let node = node_in(source.checked, t);
    if !exists(&source.world, col, session) {
        return Ok(());
    }
    let mask = mask_read(
        source.alloc,
        node,
        source.world.assets.sid(col),
        session as u32,
    )?;
    finish_all(source, walk, t, &mask, steps)?;
    let basis = Basis {
        world: source.world,
        checked: source.checked,
        stated: &walk.stated,
    };
    match mask_stated(&basis, node.mask, col, session) {
        Some(true) => finish_kind(source, walk, t, col, session, view, steps),
        Some(false) => Ok(()),
        None => unreachable!(),
    }
}

// Finishes what the kind of a term reads.
#[cycle(walk)]
fn finish_kind<L: Ledger>(
    source: &Source<'_>,
    walk: &mut Walk,
    t: TermId,
    col: usize,
    session: usize,
    view: Option<u32>,
    steps: &mut Steps<L>,
) -> Result<(), ExplainError>
    requires stands { HoldsSoFar source.now.world source.now.checked.now walk.old }
    requires col { col < length source.now.world.assets.now }
    requires session { session < length source.now.world.sessions.now }
    requires fact { MayBeDerived source.now.world source.now.checked.now
        (value_fact t.0 (sid_at source.now.world.assets.now col) (pos session) (view_at view)) }
    requires facts { Each (CanBeDerivedWithin source.now.world source.now.checked.now (t.0 + 1))
        (facts_read source.now.world source.now.checked.now t.0
        (sid_at source.now.world.assets.now col) session view) }
    ensures { IsWalkTo source.now.world source.now.checked.now (t.0 + 1)
        (facts_read source.now.world source.now.checked.now t.0
        (sid_at source.now.world.assets.now col) session view) walk.old walk.new result }
{
    if is_whole(source, walk, t, session) {
        return Ok(());
    }
    let facts = facts_read(
        source.alloc,
        &source.world,
        source.checked,
        t,
        col,
        session,
        view,
    )?;
    finish_all(source, walk, t, &facts, steps)
}

// Whether all that a cross-section reads is finished, since its row is kept.
fn is_whole(source: &Source<'_>, walk: &Walk, t: TermId, session: usize) -> bool
    requires stands { HoldsSoFar source.now.world source.now.checked.now walk.now }
    requires term { t.0 < length source.now.checked.now.graph }
    requires session { session < length source.now.world.sessions.now }
    ensures stand { IsTrue result → (a : _) → (view : _)
        → has_all walk.now.stated (facts_read source.now.world source.now.checked.now t.0 a session view)
        ≡ true }
    ensures whole { HasKind source.now.checked.now t.0 is_section → HasRow t.0 session walk.now.rows
        → result ≡ true }
{
    match family_of(&node_in(source.checked, t).kind) {
        Family::Section => walk.rows.row(t.0, session as u32).is_some(),
        _ => false,
    }
}

// The value of a term, as it is seen, whose premises are finished.
fn value_now(
    source: &Source<'_>,
    walk: &mut Walk,
    t: TermId,
    col: usize,
    session: usize,
    view: Option<u32>,
) -> Result<i64, Memory>
    requires stands { HoldsSoFar source.now.world source.now.checked.now walk.old }
    requires term { t.0 < length source.now.checked.now.graph }
    requires col { col < length source.now.world.assets.now }
    requires session { session < length source.now.world.sessions.now }
    requires premises { has_all walk.old.stated
        (own_facts source.now.world source.now.checked.now t.0
        (sid_at source.now.world.assets.now col) session view) ≡ true }
    ensures value { IfOk result (λ x. x ≡ seen_in source.now.world source.now.checked.now t.0 view
        (sid_at source.now.world.assets.now col) session) }
    ensures cell { IfOk result IsCell }
    ensures stated { walk.new.stated ≡ walk.old.stated }
    ensures lines { walk.new.lines ≡ walk.old.lines }
    ensures rows { OnOk result (KeepsRows source.now.world source.now.checked.now walk.old.stated
        walk.new.rows) }
{
    let basis = Basis {
        world: source.world,
        checked: source.checked,
        stated: &walk.stated,
    };
    let rows = &mut walk.rows;
    match value_stated(source.alloc, &basis, rows, t, col, session, view)? {
        Some(value) => Ok(value),
        None => unreachable!(),
    }
}

// Finishes a bar as it is seen on a later session.
fn finish_bar<L: Ledger>(
    source: &Source<'_>,
    walk: &mut Walk,
    column: Column,
    sid: u32,
    bar: u32,
    session: u32,
    steps: &mut Steps<L>,
) -> Result<(), ExplainError>
    requires stands { HoldsSoFar source.now.world source.now.checked.now walk.old }
    requires fact { MayBeDerived source.now.world source.now.checked.now
        (Seen column sid (pos bar) (pos session)) }
    requires fresh { has walk.old.stated (Seen column sid (pos bar) (pos session)) ≡ false }
    ensures { IsWalkTo source.now.world source.now.checked.now 1
        (Seen column sid (pos bar) (pos session) ∷ []) walk.old walk.new result }
{
    let Some(col) = col_of(&source.world, sid) else {
        unreachable!();
    };
    let seen = seen_cells(
        source.alloc,
        &source.world,
        column,
        col,
        bar as usize,
        session as usize,
        steps,
    )?;
    let number = last_of(&seen);
    let line = Line::Seen {
        column,
        sid,
        bar_day: source.world.sessions.day(bar as usize),
        day: source.world.sessions.day(session as usize),
        cells: CellList::new(seen),
    };
    let fact = Fact::Seen {
        column,
        sid,
        bar,
        session,
    };
    put(walk, fact, number, line)
}

// Puts a fact and its line after those that are finished.
fn put(walk: &mut Walk, fact: Fact, number: i64, line: Line) -> Result<(), ExplainError>
    requires few { length walk.old.lines.items ≤ most_lines }
    ensures { IsPut (fact_of fact) number line walk.old walk.new result }
{
    if walk.lines.len() == MOST_LINES {
        return Err(ExplainError::TooLong);
    }
    walk.stated.insert(fact, number)?;
    walk.lines.push(line)?;
    Ok(())
}
