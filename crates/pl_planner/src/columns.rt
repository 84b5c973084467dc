//! How many arrays are held at once, and how far back bars are read.

ghost use Rattle.std.specs.Prelude.{◌≡◌, ◌||◌, if◌then◌else◌, ℕ, List, ◌+◌, ◌*◌, ◌<◌, ◌≤◌, count_by, filter_map, flat_map, fold, length, map, max};
ghost use Rattle.std.specs.List.{list_any, range_with_len};
ghost use Rattle.pl_spec.specs.Limits.{most_terms, most_window};
ghost use Rattle.pl_spec.specs.World.{column_number};
ghost use Rattle.pl_pipeline.specs.Cones.{cone_depths, reads_of};
ghost use Rattle.pl_pipeline.specs.Graph.{contains, input_column};
ghost use Rattle.pl_terms.specs.Checked.{pipeline_of};
ghost use Rattle.pl_terms.specs.Nodes.{graph_of, input_of, node_of, number_of};
ghost use Rattle.pl_planner.specs.Asked.{AreAsked};
ghost use Rattle.pl_planner.specs.Cones.{cones_of, pairs_of, terms_of};
ghost use Rattle.pl_planner.specs.Uses.{AreForOutputs, AreUsesBy, is_kept, use_at};
ghost use Rattle.pl_planner.specs.Columns.{bars_at, bars_back, bars_with, columns_with, is_bar, held_at, most_back, most_held, reads_back};

use crate::cones::{Cone, ConeTerm};
use crate::pipeline::{count, node_at};
use crate::uses::{Use, back_from};
use pl_calendar::Sessions;
use pl_spec::Column;
use pl_terms::{Checked, Graph, Input, Node, TermId};

fn one_if(holds: bool) -> usize
    ensures { result ≡ (if holds then 1 else 0) }
{
    if holds { 1 } else { 0 }
}

pub(crate) fn either(first: bool, second: bool) -> bool
    ensures { result ≡ (first || second) }
{
    first || second
}

pub(crate) fn is_kept(uses: &[Use], k: usize, t: usize) -> bool
    requires within { t < length uses.now }
    ensures { result ≡ is_kept uses.now k t }
{
    uses[t].used && k <= uses[t].last
}

// The used terms numbered at most k that are outputs or are read by a used term numbered at least k.
fn live_at(uses: &[Use], k: usize) -> usize
    requires within { k < length uses.now }
    ensures value { result ≡ count_by (is_kept uses.now k) (range_with_len 0 (k + 1)) }
    ensures few { result ≤ k + 1 }
{
    let mut live = 0;
    for t in 0..k + 1 {
        live += one_if(is_kept(uses, k, t));
    }
    live
}

/// Is one of the inputs the bar column?
pub fn has_column(inputs: &[Input], column: Column) -> bool
    ensures { result ≡ contains (filter_map input_column (map input_of inputs.now)) (column_number column) }
{
    match inputs {
        [] => false,
        [Input::Column(own), rest @ ..] => *own == column || has_column(rest, column),
        [Input::Term(_), rest @ ..] => has_column(rest, column),
    }
}

#[tactic(auto, unfolding(pl_terms::specs::Nodes::node_of))]
fn reads(node: &Node, column: Column) -> bool
    ensures { result ≡ contains (filter_map input_column (node_of node.now).inputs) (column_number column) }
{
    has_column(node.inputs.as_slice(), column)
}

fn term_reads(graph: &Graph, t: TermId, column: Column) -> bool
    ensures { result ≡ contains (bars_at (graph_of graph.now) (number_of t)) (column_number column) }
{
    if (t.0 as usize) < graph.len() {
        reads(graph.node(t), column)
    } else {
        false
    }
}

// Does a term of a cone read the bar column?
#[tactic(auto, unfolding(crate::specs::Cones::pairs_of))]
fn cone_reads(graph: &Graph, cone: &[ConeTerm], column: Column) -> bool
    ensures { result ≡ contains
        (flat_map (bars_at (graph_of graph.now)) (terms_of (pairs_of cone.now))) (column_number column) }
{
    match cone {
        [] => false,
        [first, rest @ ..] => {
            either(
                term_reads(graph, first.term, column),
                cone_reads(graph, rest, column),
            )
        }
    }
}

// Does a term or its cone read the bar column?
fn holds(graph: &Graph, t: TermId, cone: &[ConeTerm], column: Column) -> bool
    ensures { result ≡ contains
        (bars_with (graph_of graph.now) (number_of t) (terms_of (pairs_of cone.now))) (column_number column) }
{
    either(
        term_reads(graph, t, column),
        cone_reads(graph, cone, column),
    )
}

// How many bar columns a term and its cone read.
fn columns_of(graph: &Graph, t: TermId, cone: &[ConeTerm]) -> usize
    ensures value { result ≡ columns_with (graph_of graph.now) (number_of t) (terms_of (pairs_of cone.now)) }
    ensures few { result ≤ 5 }
{
    let open = one_if(holds(graph, t, cone, Column::OpenPrice));
    let high = one_if(holds(graph, t, cone, Column::High));
    let low = one_if(holds(graph, t, cone, Column::Low));
    let close = one_if(holds(graph, t, cone, Column::Close));
    let volume = one_if(holds(graph, t, cone, Column::Volume));
    open + high + low + close + volume
}

fn held_at(graph: &Graph, uses: &[Use], cone: &[ConeTerm], k: usize) -> usize
    requires uses { length uses.now ≡ length graph.now }
    requires within { k < length uses.now }
    requires few { length uses.now ≤ most_terms }
    requires cone { pairs_of cone.now ≡ cone_depths (graph_of graph.now) k }
    ensures value { result ≡ held_at (graph_of graph.now) uses.now k }
    ensures few { result ≤ most_terms + 5 }
{
    if uses[k].used {
        live_at(uses, k) + columns_of(graph, TermId(k as u8), cone)
    } else {
        0
    }
}

/// The greatest number of results and bar columns that are held at once.
pub(crate) fn bound_of(graph: &Graph, uses: &[Use], cones: &[Cone]) -> usize
    requires uses { length uses.now ≡ length graph.now }
    requires cones { cones_of cones.now
        ≡ map (cone_depths (graph_of graph.now)) (range_with_len 0 (length graph.now)) }
    ensures value { (outputs : List ℕ)
        → AreUsesBy (reads_of (graph_of graph.now)) (graph_of graph.now) outputs uses.now
        → result ≡ most_held (graph_of graph.now) outputs }
    ensures few { result ≤ most_terms + 5 }
{
    let _shared = graph.len();
    let mut bound = 0;
    for k in 0..cones.len() {
        bound = bound.max(held_at(graph, uses, &cones[k].terms, k));
    }
    bound
}

pub(crate) fn reads_bars(inputs: &[Input]) -> bool
    ensures { result ≡ list_any is_bar (map input_of inputs.now) }
{
    match inputs {
        [] => false,
        [Input::Column(_), ..] => true,
        [Input::Term(_), rest @ ..] => reads_bars(rest),
    }
}

// A window of bars ends on the session before the one that it is read for.
#[tactic(auto, unfolding(pl_terms::specs::Nodes::node_of))]
fn bars_back(node: &Node) -> usize
    ensures { result ≡ bars_back (node_of node.now) }
{
    if reads_bars(node.inputs.as_slice()) {
        node.window as usize
    } else {
        0
    }
}

// How many sessions before the session a used term reads.
fn reads_back(
    checked: &Checked,
    sessions: &Sessions,
    uses: &[Use],
    session: usize,
    t: usize,
) -> usize
    requires asked { AreAsked sessions.now (pipeline_of checked.now) }
    requires uses { AreForOutputs sessions.now session (pipeline_of checked.now).graph uses.now }
    requires session { session < length sessions.now }
    requires within { t < length uses.now }
    ensures value { result ≡ reads_back sessions.now session (pipeline_of checked.now).graph uses.now t }
    ensures few { result ≤ session + most_window * (most_terms + 1) }
{
    if uses[t].used {
        let node = node_at(checked, t);
        back_from(sessions, node, session, uses[t].extra) + bars_back(node)
    } else {
        0
    }
}

/// How many sessions before the session the used terms read, at most.
pub(crate) fn most_back(
    checked: &Checked,
    sessions: &Sessions,
    uses: &[Use],
    session: usize,
) -> usize
    requires asked { AreAsked sessions.now (pipeline_of checked.now) }
    requires uses { AreForOutputs sessions.now session (pipeline_of checked.now).graph uses.now }
    requires within { session < length sessions.now }
    ensures value { result ≡ most_back sessions.now session (pipeline_of checked.now).graph uses.now
        (length (pipeline_of checked.now).graph) }
    ensures few { result ≤ session + most_window * (most_terms + 1) }
{
    let mut most = 0;
    for t in 0..count(checked) {
        most = most.max(reads_back(checked, sessions, uses, session, t));
    }
    most
}
