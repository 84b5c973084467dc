//! Which terms are the same from wherever they are seen.

ghost use Rattle.std.specs.Prelude.{◌≡◌, ◌<◌, length, map};
ghost use Rattle.std.specs.List.{list_all};
ghost use Rattle.pl_pipeline.specs.Cones.{is_windowed};
ghost use Rattle.pl_terms.specs.Kinds.{kind_of};
ghost use Rattle.pl_terms.specs.Nodes.{graph_of, input_of, node_of};
ghost use Rattle.pl_planner.specs.Steady.{AreSteady, follows_inputs, is_still, is_still_input};

use pl_terms::{Graph, Input, Node, TermId, TermKind, kind_row, window_kind};

/// Is the kind a formula or a filter over a window?
pub(crate) fn is_windowed(kind: &TermKind) -> bool
    ensures { result ≡ is_windowed (kind_of kind.now) }
{
    match window_kind(kind) {
        Some(_) => true,
        None => false,
    }
}

// Does a formula or an operation move where what it is of does?
fn follows_inputs(kind: &TermKind) -> bool
    ensures { result ≡ follows_inputs (kind_of kind.now) }
{
    !kind_row(kind).keeps_values
}

fn are_still(steady: &[bool; 256], inputs: &[Input], windowed: bool) -> bool
    ensures { result ≡ list_all (is_still_input steady.now windowed) (map input_of inputs.now) }
{
    match inputs {
        [] => true,
        [Input::Column(_), rest @ ..] => !windowed && are_still(steady, rest, windowed),
        [Input::Term(t), rest @ ..] => { steady[t.0 as usize] && are_still(steady, rest, windowed) }
    }
}

#[tactic(auto, unfolding(pl_terms::specs::Nodes::node_of))]
fn is_still(steady: &[bool; 256], node: &Node) -> bool
    ensures { result ≡ is_still steady.now (node_of node.now) }
{
    if follows_inputs(&node.kind) {
        are_still(steady, node.inputs.as_slice(), is_windowed(&node.kind))
    } else {
        true
    }
}

/// Which terms keep their values, or are formulas or operations of such terms alone.
pub fn steady_terms(graph: &Graph) -> [bool; 256]
    ensures { AreSteady (graph_of graph.now) (length graph.now) result }
{
    let mut steady = [false; 256];
    for k in 0..graph.len() {
        steady[k] = is_still(&steady, graph.node(TermId(k as u8)));
    }
    steady
}
