//! The kinds whose sorts terms have.
ghost use Rattle.std.specs.Prelude.{◌≡◌, ◌<◌, false, length, IfSome, IfNone, option_map};
ghost use Rattle.pl_spec.specs.Rounding.{MISSING};
ghost use Rattle.pl_pipeline.specs.Kind.Kind.{Constant, Downsample};
ghost use Rattle.pl_pipeline.specs.Text.{kind_at};
ghost use Rattle.pl_terms.specs.Kinds.{kind_of};
ghost use Rattle.pl_terms.specs.Nodes.{node_of, graph_of, number_of};
ghost use Rattle.pl_terms.specs.Sorts as spec;

use crate::graph::Graph;
use crate::kind::TermKind;
use crate::node::{Input, Node, TermId};
use pl_spec::Frequency;

/// The frequency of a downsampled term's kind; `None` for every other kind.
#[tactic(auto, unfolding(crate::specs::Kinds::kind_of))]
pub fn frequency_of(kind: &TermKind) -> Option<Frequency>
    ensures some { IfSome result (λ f. kind_of kind.now ≡ Downsample f) }
    ensures none { IfNone result (spec.is_downsampled (kind_of kind.now) ≡ false) }
{
    match kind {
        TermKind::Downsample { frequency } => Some(*frequency),
        _ => None,
    }
}

#[tactic(auto, unfolding(crate::specs::Kinds::kind_of))]
fn is_downsampled(kind: &TermKind) -> bool
    ensures { result ≡ spec.is_downsampled (kind_of kind.now) }
{
    match kind {
        TermKind::Downsample { .. } => true,
        _ => false,
    }
}

// The first input where it is a term.
#[tactic(auto, unfolding(crate::specs::Nodes::node_of))]
fn first_term(node: &Node) -> Option<TermId>
    ensures { option_map number_of result ≡ spec.first_term (node_of node.now).inputs }
{
    match node.inputs.as_slice() {
        [Input::Term(term), ..] => Some(*term),
        _ => None,
    }
}

/// The kind whose sort a term has: its own, or that of its input where it is downsampled; `None` where a bar
/// column is downsampled, which no checked pipeline does.
pub fn sorting_kind(graph: &Graph, t: TermId) -> Option<&TermKind>
    requires { t.0 < length graph.now }
    ensures some { IfSome result (λ kind. kind_of kind.now ≡ kind_at (graph_of graph.now) t.0) }
    ensures none { IfNone result (kind_at (graph_of graph.now) t.0 ≡ Constant MISSING) }
{
    let _terms = graph.len();
    let node = graph.node(t);
    if !is_downsampled(&node.kind) {
        return Some(&node.kind);
    }
    match first_term(node) {
        Some(input) => sorting_kind(graph, input),
        None => None,
    }
}
