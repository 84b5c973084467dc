//! What a node mentions.
ghost use Rattle.std.specs.Prelude.{◌≡◌, option_map, slice_get, length, ◌≤◌, map};
ghost use Rattle.pl_terms.specs.Kinds.{kind_of};
ghost use Rattle.pl_terms.specs.Nodes.{input_of, node_of, number_of};

use pl_terms::{Input, Node, TermId, TermKind};

/// What a node computes.
#[tactic(auto, unfolding(pl_terms::specs::Nodes::node_of))]
pub fn kind_of(node: &Node) -> &TermKind
    ensures { kind_of result.now ≡ (node_of node.now).kind }
{
    &node.kind
}

/// Its mask.
#[tactic(auto, unfolding(pl_terms::specs::Nodes::node_of))]
pub fn mask_of(node: &Node) -> Option<TermId>
    ensures { option_map number_of result ≡ (node_of node.now).mask }
{
    node.mask
}

/// Its group.
#[tactic(auto, unfolding(pl_terms::specs::Nodes::node_of))]
pub fn group_of(node: &Node) -> Option<TermId>
    ensures { option_map number_of result ≡ (node_of node.now).group }
{
    node.group
}

/// The length of its windows.
#[tactic(auto, unfolding(pl_terms::specs::Nodes::node_of))]
pub fn window_of(node: &Node) -> usize
    ensures { result ≡ (node_of node.now).window }
{
    node.window as usize
}

/// Its inputs.
#[tactic(auto, unfolding(pl_terms::specs::Nodes::node_of))]
pub fn inputs_of(node: &Node) -> &[Input]
    ensures value { map input_of result.now ≡ (node_of node.now).inputs }
    ensures few { length result.now ≤ 3 }
{
    node.inputs.as_slice()
}

/// The input of a node in a place, if there is one.
#[tactic(auto, unfolding(pl_terms::specs::Nodes::node_of))]
pub fn input_at(node: &Node, place: usize) -> Option<Input>
    ensures { option_map input_of result ≡ slice_get (node_of node.now).inputs place }
{
    let inputs = node.inputs.as_slice();
    if place < inputs.len() {
        Some(inputs[place])
    } else {
        None
    }
}
