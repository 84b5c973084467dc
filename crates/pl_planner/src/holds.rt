//! What the cone of a term reads is kept until the term is computed.

ghost use Rattle.std.specs.Prelude.{◌≡◌, ℕ, List, false, if◌then◌else◌, filter, filter_map, get_or, length, map, option_map, option_to_list};
ghost use Rattle.std.specs.List.{range_with_len};
ghost use Rattle.pl_pipeline.specs.Cones.{cone_depths, reads_of};
ghost use Rattle.pl_pipeline.specs.Graph.{input_number};
ghost use Rattle.pl_terms.specs.Nodes.{graph_of, input_of, node_of, number_of};
ghost use Rattle.pl_planner.specs.Cones.{cones_of};
ghost use Rattle.pl_planner.specs.Holds.{all_bordered, all_held, border_at, border_in, held};
ghost use Rattle.pl_planner.specs.Uses.{AreUses, AreUsesBy, use_at};

use crate::cones::{Cone, ConeTerm};
use crate::steady::steady_terms;
use crate::uses::{Use, use_of};
use pl_terms::{Graph, Input, Node, TermId};

fn hold_one(uses: &mut [Use], t: TermId, by: usize)
    ensures { uses.new ≡ held by uses.old (number_of t) }
{
    let own = t.0 as usize;
    let old = use_of(uses, own);
    if own < uses.len() {
        uses[own] = Use {
            used: old.used,
            extra: old.extra,
            last: old.last.max(by),
        };
    }
}

fn hold_inputs(uses: &mut [Use], steady: &[bool; 256], inputs: &[Input], by: usize)
    ensures { uses.new ≡ all_held uses.old by
        (filter (λ u. get_or steady.now u false) (filter_map input_number (map input_of inputs.now))) }
{
    match inputs {
        [] => {}
        [Input::Column(_), rest @ ..] => hold_inputs(uses, steady, rest, by),
        [Input::Term(t), rest @ ..] => {
            if steady[t.0 as usize] {
                hold_one(uses, *t, by);
            }
            hold_inputs(uses, steady, rest, by);
        }
    }
}

fn hold_mask(uses: &mut [Use], mask: Option<TermId>, by: usize)
    ensures { uses.new ≡ all_held uses.old by (option_to_list (option_map number_of mask)) }
{
    if let Some(t) = mask {
        hold_one(uses, t, by);
    }
}

// What a node of a cone reads beside the cone.
#[tactic(auto, unfolding(pl_terms::specs::Nodes::node_of))]
fn hold_node(uses: &mut [Use], steady: &[bool; 256], node: &Node, by: usize)
    ensures { uses.new ≡ all_held uses.old by (border_in steady.now (node_of node.now)) }
{
    hold_inputs(uses, steady, node.inputs.as_slice(), by);
    hold_mask(uses, node.mask, by);
}

fn hold_term(uses: &mut [Use], graph: &Graph, steady: &[bool; 256], t: TermId, by: usize)
    ensures { uses.new ≡ all_held uses.old by (border_at steady.now (graph_of graph.now) (number_of t)) }
{
    if (t.0 as usize) < graph.len() {
        hold_node(uses, steady, graph.node(t), by);
    }
}

fn hold_cone(uses: &mut [Use], graph: &Graph, steady: &[bool; 256], cone: &[ConeTerm], by: usize)
    ensures { uses.new ≡ all_bordered steady.now (graph_of graph.now) by uses.old cone.now }
{
    match cone {
        [] => {}
        [first, rest @ ..] => {
            hold_term(uses, graph, steady, first.term, by);
            hold_cone(uses, graph, steady, rest, by);
        }
    }
}

// The same of a used term.
fn hold_user(uses: &mut [Use], graph: &Graph, steady: &[bool; 256], cone: &[ConeTerm], k: usize)
    ensures { uses.new ≡ (if (use_at uses.old k).used
        then all_bordered steady.now (graph_of graph.now) k uses.old cone.now else uses.old) }
{
    if use_of(uses, k).used {
        hold_cone(uses, graph, steady, cone, k);
    }
}

/// Keeps what a cone reads until the term of the cone is computed.
pub(crate) fn hold_borders(uses: &mut [Use], graph: &Graph, cones: &[Cone])
    requires cones { cones_of cones.now
        ≡ map (cone_depths (graph_of graph.now)) (range_with_len 0 (length graph.now)) }
    requires size { length uses.old ≡ length graph.now }
    ensures { (outputs : List ℕ) → AreUses (graph_of graph.now) outputs uses.old
        → AreUsesBy (reads_of (graph_of graph.now)) (graph_of graph.now) outputs uses.new }
{
    let _shared = graph.len();
    let steady = steady_terms(graph);
    for k in 0..cones.len() {
        hold_user(uses, graph, &steady, &cones[k].terms, k);
    }
}

/// The same of the uses of a plan.
pub(crate) fn hold(uses: &mut Vec<Use>, graph: &Graph, cones: &[Cone])
    requires cones { cones_of cones.now
        ≡ map (cone_depths (graph_of graph.now)) (range_with_len 0 (length graph.now)) }
    requires size { length uses.old.items ≡ length graph.now }
    ensures { (outputs : List ℕ) → AreUses (graph_of graph.now) outputs uses.old.items
        → AreUsesBy (reads_of (graph_of graph.now)) (graph_of graph.now) outputs uses.new.items }
{
    hold_borders(uses, graph, cones);
}
