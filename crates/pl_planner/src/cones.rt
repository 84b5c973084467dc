//! The cone of a term: the terms that its windows are over and that move with the bars.

ghost use Rattle.std.specs.Prelude.{◌≡◌, ℕ, ◌<◌, ◌≤◌, ◌-◌, ◌^◌, ◌++◌, ◌∷◌, [], List, IfOk, OnOk, Some, false, get_or, if◌then◌else◌, length, map, nat_lt};
ghost use Rattle.std.specs.List.{list_any, range_with_len};
ghost use Rattle.pl_spec.specs.Limits.{most_terms};
ghost use Rattle.pl_pipeline.specs.Cones.{cone_depths, depths_below, is_windowed, larger};
ghost use Rattle.pl_pipeline.specs.Term.{IsGraph};
ghost use Rattle.pl_terms.specs.Nodes.{graph_of, input_of, node_of, number_of};
ghost use Rattle.pl_planner.specs.Cones.{AddsMarks, AreMarks, HaveRoom, cones_of, moving_marks, pairs_of};
ghost use Rattle.pl_planner.specs.Steady.{AreSteady};

use crate::columns::either;
use crate::steady::{is_windowed, steady_terms};
use pl_fixed::Memory;
use pl_terms::{Graph, Input, Node, TermId};
use std::alloc::{AllocError, Global};

/// A term of a cone, and on how many sessions before the term's own it is read, as it is seen on that.
#[derive(Clone, Copy, Debug)]
pub struct ConeTerm {
    pub term: TermId,
    pub depth: usize,
}

/// The terms of a cone, ascending.
#[derive(Drop)]
pub(crate) struct Cone {
    pub(crate) terms: Vec<ConeTerm>,
}

fn larger(depth: usize, other: Option<usize>) -> usize
    ensures { result ≡ larger depth other }
{
    match other {
        Some(other) => depth.max(other),
        None => depth,
    }
}

fn mark_depth(depths: &mut [Option<usize>; 256], t: TermId, depth: usize)
    ensures { AddsMarks depths.old depths.new ((number_of t, depth) ∷ []) }
{
    let own = t.0 as usize;
    depths[own] = Some(larger(depth, depths[own]));
}

fn mark_moving(depths: &mut [Option<usize>; 256], steady: &[bool; 256], t: TermId, depth: usize)
    ensures { AddsMarks depths.old depths.new
        (if get_or steady.now (number_of t) false then [] else ((number_of t, depth) ∷ [])) }
{
    if !steady[t.0 as usize] {
        mark_depth(depths, t, depth);
    }
}

// Marks the terms among inputs that move.
fn mark_inputs(
    depths: &mut [Option<usize>; 256],
    steady: &[bool; 256],
    inputs: &[Input],
    depth: usize,
)
    ensures { AddsMarks depths.old depths.new (moving_marks steady.now depth (map input_of inputs.now)) }
{
    match inputs {
        [] => {}
        [Input::Column(_), rest @ ..] => mark_inputs(depths, steady, rest, depth),
        [Input::Term(t), rest @ ..] => {
            mark_moving(depths, steady, *t, depth);
            mark_inputs(depths, steady, rest, depth);
        }
    }
}

// On how many sessions before its own a node reads its windows.
#[tactic(auto, unfolding(pl_terms::specs::Nodes::node_of))]
fn sessions_before(node: &Node) -> usize
    ensures value { result ≡ (node_of node.now).window - 1 }
    ensures few { result < 2 ^ 32 }
{
    (node.window as usize).saturating_sub(1)
}

#[tactic(auto, unfolding(pl_terms::specs::Nodes::node_of))]
fn mark_node(depths: &mut [Option<usize>; 256], steady: &[bool; 256], node: &Node, depth: usize)
    ensures { AddsMarks depths.old depths.new (moving_marks steady.now depth (node_of node.now).inputs) }
{
    mark_inputs(depths, steady, node.inputs.as_slice(), depth);
}

fn push_term(cone: &mut Vec<ConeTerm>, term: TermId, depth: usize) -> Result<(), AllocError>
    ensures { OnOk result (pairs_of cone.new.items
        ≡ pairs_of cone.old.items ++ (number_of term, depth) ∷ []) }
{
    cone.push(ConeTerm { term, depth })?;
    Ok(())
}

// Puts the terms below count after the rest, where the depths are what those from there on ask for.
fn push_below(
    cone: &mut Vec<ConeTerm>,
    graph: &Graph,
    steady: &[bool; 256],
    depths: &mut [Option<usize>; 256],
    count: usize,
) -> Result<(), AllocError>
    requires graph { IsGraph (graph_of graph.now) }
    requires within { count ≤ length graph.now }
    requires few { count ≤ most_terms }
    requires steady { AreSteady (graph_of graph.now) (length graph.now) steady.now }
    requires room { HaveRoom count depths.old }
    ensures { (marks : List (ℕ × ℕ)) → AreMarks depths.old marks → OnOk result (pairs_of cone.new.items
        ≡ pairs_of cone.old.items ++ depths_below (graph_of graph.now) count marks) }
{
    if count == 0 {
        return Ok(());
    }
    let last = count - 1;
    let term = TermId(last as u8);
    match depths[last] {
        None => push_below(cone, graph, steady, depths, last),
        Some(depth) => {
            let node = graph.node(term);
            mark_node(depths, steady, node, depth + sessions_before(node));
            push_below(cone, graph, steady, depths, last)?;
            push_term(cone, term, depth)
        }
    }
}

// Marks what a window of the term is over.
fn mark_window(depths: &mut [Option<usize>; 256], steady: &[bool; 256], node: &Node)
    ensures adds { AddsMarks depths.old depths.new (if is_windowed (node_of node.now).kind
        then moving_marks steady.now ((node_of node.now).window - 1) (node_of node.now).inputs else []) }
    ensures few { (node_of node.now).window - 1 < 2 ^ 32 }
{
    let before = sessions_before(node);
    if is_windowed(&node.kind) {
        mark_node(depths, steady, node, before);
    }
}

/// The cone of a term: the terms that its windows are over and that move with the bars, ascending, each with
/// the greatest number of sessions before the term's own on which it is read.
pub(crate) fn cone_of(
    alloc: Global,
    graph: &Graph,
    steady: &[bool; 256],
    t: TermId,
) -> Result<Cone, AllocError>
    requires within { t.0 < length graph.now }
    requires steady { AreSteady (graph_of graph.now) (length graph.now) steady.now }
    ensures { IfOk result (λ cone. pairs_of cone.terms.items ≡ cone_depths (graph_of graph.now) t.0) }
{
    let _shared = graph.len();
    let mut terms = Vec::new(alloc);
    let mut depths = [None; 256];
    mark_window(&mut depths, steady, graph.node(t));
    push_below(&mut terms, graph, steady, &mut depths, t.0 as usize)?;
    Ok(Cone { terms })
}

/// The cones of all terms by number.
pub(crate) fn gather_cones(alloc: Global, graph: &Graph) -> Result<Vec<Cone>, AllocError>
    ensures { IfOk result (λ cones. cones_of cones.items
        ≡ map (cone_depths (graph_of graph.now)) (range_with_len 0 (length graph.now))) }
{
    let steady = steady_terms(graph);
    let mut cones = Vec::with_capacity(alloc, graph.len())?;
    for k in 0..graph.len() {
        cones.push(cone_of(alloc, graph, &steady, TermId(k as u8))?)?;
    }
    Ok(cones)
}

/// The cone of a term: the terms that its windows are over and that move with the bars, ascending, each with
/// the greatest number of sessions before the term's own on which it is read, as it is seen on that. A term
/// whose windows hold bars, or terms that keep their values, has none. The only error is want of memory.
pub fn cone_at(alloc: Global, graph: &Graph, t: TermId) -> Result<Vec<ConeTerm>, Memory>
    requires { t.0 < length graph.now }
    ensures { IfOk result (λ cone. pairs_of cone.items ≡ cone_depths (graph_of graph.now) t.0) }
{
    let steady = steady_terms(graph);
    let cone = cone_of(alloc, graph, &steady, t)?;
    Ok(cone.terms)
}

/// Has one of the cones a term?
#[tactic(auto, using(crate::proofs::Coned::any_none))]
pub(crate) fn any_terms(cones: &[Cone]) -> bool
    ensures { result ≡ list_any (λ c. nat_lt 0 (length c)) (cones_of cones.now) }
{
    match cones {
        [] => false,
        [first, rest @ ..] => either(first.terms.len() > 0, any_terms(rest)),
    }
}
