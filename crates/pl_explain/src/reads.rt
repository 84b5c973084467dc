//! The facts that a value rests on, in order.
ghost use Rattle.std.specs.Prelude.{◌≡◌, ◌<◌, ◌≤◌, IfOk, OnOk, flat_map, length, map, option_map, pos, Some, slice_get};
ghost use Rattle.pl_spec.specs.Limits.{most_sessions};
ghost use Rattle.pl_spec.specs.Parts.{sid_at};
ghost use Rattle.pl_spec.specs.World.{living_sids};
ghost use Rattle.pl_terms.specs.Nodes.{input_of, node_of, number_of};
ghost use Rattle.pl_pipeline.specs.Value.{From};
ghost use Rattle.pl_terms.specs.Checked.{pipeline_of};
ghost use Rattle.pl_derivation.specs.Facts.{entry_facts, facts_now, number_facts, over_inputs, told_fact, window_facts};
ghost use Rattle.pl_world.specs.Views.{view_at};
ghost use Rattle.pl_world.specs.Worlds.{world_of};
ghost use Rattle.pl_world.specs.Evaluations.{IsAsked};
ghost use Rattle.pl_explain.specs.Given.{facts_read, IsReady};
ghost use Rattle.pl_explain.specs.Keys.{fact_of};
ghost use Rattle.pl_explain.specs.Reading.{end_of, AreInGraph, ArePut, IsInGraph, IsRoomy};

use crate::basis::node_in;
use crate::fact::{Fact, end_of, fact_at, told_by};
use crate::views::{is_steady, is_steady_input, operand_view, window_view};
use pl_fixed::Memory;
use pl_terms::{Checked, Input, Node, TermId};
use pl_values::{Family, family_of};
use pl_world::{World, exists, input_at};
use std::alloc::Global;

/// The mask of a node for an asset on a session, where it has one.
pub(crate) fn mask_read(
    alloc: Global,
    node: &Node,
    sid: u32,
    session: u32,
) -> Result<Vec<Fact>, Memory>
    ensures { IfOk result (λ v. map fact_of v.items
        ≡ number_facts sid (pos session) (option_map number_of node.now.mask)) }
{
    let mut facts = Vec::new(alloc);
    put_number(node.mask, sid, session, &mut facts)?;
    Ok(facts)
}

/// What the kind of a term reads for an asset on a session, where it is seen from a later session if from one.
pub(crate) fn facts_read(
    alloc: Global,
    world: &World,
    checked: &Checked,
    t: TermId,
    col: usize,
    session: usize,
    view: Option<u32>,
) -> Result<Vec<Fact>, Memory>
    requires ready { IsReady world.now checked.now }
    requires asked { IsAsked world.now checked.now t.0 session }
    requires col { col < length world.now.assets.now }
    ensures { IfOk result (λ v. map fact_of v.items
        ≡ facts_read world.now checked.now t.0 (sid_at world.now.assets.now col) session view) }
{
    let node = node_in(checked, t);
    let sid = world.assets.sid(col);
    match family_of(&node.kind) {
        Family::Constant(_) | Family::Label(_) | Family::Number(..) | Family::Sids => {
            Ok(Vec::new(alloc))
        }
        Family::Window => {
            let from = window_view(&node.kind, view, session as u32);
            windows_read(alloc, checked, node, sid, session as u32, from)
        }
        Family::Point => {
            let from = operand_view(&node.kind, view);
            inputs_read(alloc, checked, node, sid, session as u32, from)
        }
        Family::LabelTest => inputs_read(alloc, checked, node, sid, session as u32, None),
        Family::Section => section_read(alloc, world, checked, node, session),
        Family::Downsample(frequency) => {
            let start = world.sessions.period_start(frequency, session);
            inputs_read(alloc, checked, node, sid, start as u32, None)
        }
    }
}

// The windows of the inputs, seen from a session.
fn windows_read(
    alloc: Global,
    checked: &Checked,
    node: &Node,
    sid: u32,
    session: u32,
    view: u32,
) -> Result<Vec<Fact>, Memory>
    requires inputs { AreInGraph checked.now node.now }
    requires first { IsRoomy (slice_get node.now.inputs 0) node.now.window session }
    requires second { IsRoomy (slice_get node.now.inputs 1) node.now.window session }
    requires third { IsRoomy (slice_get node.now.inputs 2) node.now.window session }
    ensures { IfOk result (λ v. map fact_of v.items ≡ over_inputs (window_facts (pipeline_of checked.now).graph
        (From (pos view)) node.now.window sid (pos session)) (node_of node.now)) }
{
    let span = Span {
        size: node.window as usize,
        sid,
        session,
        view,
    };
    let mut facts = Vec::new(alloc);
    put_window(checked, input_at(node, 0), span, &mut facts)?;
    put_window(checked, input_at(node, 1), span, &mut facts)?;
    put_window(checked, input_at(node, 2), span, &mut facts)?;
    Ok(facts)
}

// The inputs on the session, as they are seen.
fn inputs_read(
    alloc: Global,
    checked: &Checked,
    node: &Node,
    sid: u32,
    session: u32,
    view: Option<u32>,
) -> Result<Vec<Fact>, Memory>
    requires { AreInGraph checked.now node.now }
    ensures { IfOk result (λ v. map fact_of v.items ≡ over_inputs (facts_now (pipeline_of checked.now).graph
        (view_at view) sid (pos session)) (node_of node.now)) }
{
    let mut facts = Vec::new(alloc);
    put_inputs(checked, node, sid, session, view, &mut facts)?;
    Ok(facts)
}

// The mask, the group and the inputs of every asset that exists.
fn section_read(
    alloc: Global,
    world: &World,
    checked: &Checked,
    node: &Node,
    session: usize,
) -> Result<Vec<Fact>, Memory>
    requires inputs { AreInGraph checked.now node.now }
    requires session { session < length world.now.sessions.now }
    requires few { length world.now.sessions.now ≤ most_sessions }
    ensures { IfOk result (λ v. map fact_of v.items
        ≡ flat_map (entry_facts (pipeline_of checked.now).graph (node_of node.now) (pos session))
        (living_sids (world_of world.now) (pos session))) }
{
    let mut facts = Vec::new(alloc);
    for col in 0..world.assets.len() {
        if exists(world, col, session) {
            put_entry(
                checked,
                node,
                world.assets.sid(col),
                session as u32,
                &mut facts,
            )?;
        }
    }
    Ok(facts)
}

fn put_entry(
    checked: &Checked,
    node: &Node,
    sid: u32,
    session: u32,
    facts: &mut Vec<Fact>,
) -> Result<(), Memory>
    requires { AreInGraph checked.now node.now }
    ensures { OnOk result (ArePut facts.old.items facts.new.items
        (entry_facts (pipeline_of checked.now).graph (node_of node.now) (pos session) sid)) }
{
    put_number(node.mask, sid, session, facts)?;
    put_number(node.group, sid, session, facts)?;
    put_inputs(checked, node, sid, session, None, facts)
}

fn put_number(
    number: Option<TermId>,
    sid: u32,
    session: u32,
    facts: &mut Vec<Fact>,
) -> Result<(), Memory>
    ensures { OnOk result (ArePut facts.old.items facts.new.items
        (number_facts sid (pos session) (option_map number_of number))) }
{
    match number {
        None => Ok(()),
        Some(u) => put_value(u, sid, session, facts),
    }
}

fn put_inputs(
    checked: &Checked,
    node: &Node,
    sid: u32,
    session: u32,
    view: Option<u32>,
    facts: &mut Vec<Fact>,
) -> Result<(), Memory>
    requires { AreInGraph checked.now node.now }
    ensures { OnOk result (ArePut facts.old.items facts.new.items (over_inputs
        (facts_now (pipeline_of checked.now).graph (view_at view) sid (pos session)) (node_of node.now))) }
{
    put_input(checked, input_at(node, 0), sid, session, view, facts)?;
    put_input(checked, input_at(node, 1), sid, session, view, facts)?;
    put_input(checked, input_at(node, 2), sid, session, view, facts)
}

// An input on the session, as it is seen; a bar column has nothing there.
fn put_input(
    checked: &Checked,
    input: Option<Input>,
    sid: u32,
    session: u32,
    view: Option<u32>,
    facts: &mut Vec<Fact>,
) -> Result<(), Memory>
    requires { IsInGraph checked.now input }
    ensures { OnOk result (ArePut facts.old.items facts.new.items (facts_now
        (pipeline_of checked.now).graph (view_at view) sid (pos session) (option_map input_of input))) }
{
    match input {
        None | Some(Input::Column(_)) => Ok(()),
        Some(Input::Term(u)) => {
            facts.push(told(checked, u, sid, session, view))?;
            Ok(())
        }
    }
}

// The value of a term as it is seen, as it is told.
fn told(checked: &Checked, u: TermId, sid: u32, session: u32, view: Option<u32>) -> Fact
    requires { u.0 < length checked.now.graph }
    ensures { fact_of result
        ≡ told_fact (pipeline_of checked.now).graph u.0 sid (pos session) (view_at view) }
{
    match view {
        None => Fact::TermValue {
            term: u.0,
            sid,
            session,
        },
        Some(view) => told_by(is_steady(checked, u), u.0, sid, session, view),
    }
}

fn put_value(u: TermId, sid: u32, session: u32, facts: &mut Vec<Fact>) -> Result<(), Memory>
    ensures { OnOk result (ArePut facts.old.items facts.new.items
        (number_facts sid (pos session) (Some u.0))) }
{
    facts.push(Fact::TermValue {
        term: u.0,
        sid,
        session,
    })?;
    Ok(())
}

// The sessions of a window for an asset: so many before a session, or up to it, seen from one.
#[derive(Clone, Copy)]
struct Span {
    size: usize,
    sid: u32,
    session: u32,
    view: u32,
}

// The window of an input, oldest first.
fn put_window(
    checked: &Checked,
    input: Option<Input>,
    span: Span,
    facts: &mut Vec<Fact>,
) -> Result<(), Memory>
    requires input { IsInGraph checked.now input }
    requires room { IsRoomy input span.size span.session }
    ensures { OnOk result (ArePut facts.old.items facts.new.items
        (window_facts (pipeline_of checked.now).graph (From (pos span.view)) span.size span.sid
        (pos span.session) (option_map input_of input))) }
{
    match input {
        None => Ok(()),
        Some(input) => put_run(checked, input, span, facts),
    }
}

// The bars before the session, or a term on the sessions up to it.
fn put_run(checked: &Checked, input: Input, span: Span, facts: &mut Vec<Fact>) -> Result<(), Memory>
    requires input { IsInGraph checked.now (Some input) }
    requires room { span.size ≤ end_of (input_of input) span.session }
    ensures { OnOk result (ArePut facts.old.items facts.new.items
        (window_facts (pipeline_of checked.now).graph (From (pos span.view)) span.size span.sid
        (pos span.session) (Some (input_of input)))) }
{
    let end = end_of(input, span.session);
    let steady = is_steady_input(checked, input);
    for earlier in end - span.size..end {
        facts.push(fact_at(input, steady, span.sid, earlier as u32, span.view))?;
    }
    Ok(())
}
