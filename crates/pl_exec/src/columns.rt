//! The distinct bar columns among the inputs of a node.
ghost use Rattle.std.specs.Prelude.{◌≡◌, ◌≤◌, length, map, option_map, slice_get};
ghost use Rattle.pl_spec.specs.World.{column_number};
ghost use Rattle.pl_pipeline.specs.Graph.{contains};
ghost use Rattle.pl_terms.specs.Nodes.{input_of, node_of};
ghost use Rattle.pl_exec.specs.ChunkInputs as spec;

use pl_fixed::Column;
use pl_planner::has_column;
use pl_terms::{Input, Node};
use pl_values::{input_at, inputs_of};

fn column_number(column: Column) -> u8
    ensures { result ≡ column_number column }
{
    match column {
        Column::OpenPrice => 0,
        Column::High => 1,
        Column::Low => 2,
        Column::Close => 3,
        Column::Volume => 4,
    }
}

fn is_column(input: Input, column: Column) -> bool
    ensures { result ≡ spec.is_column (input_of input) column }
{
    match input {
        Input::Column(other) => column_number(other) == column_number(column),
        Input::Term(_) => false,
    }
}

/// Is a bar column among the inputs before a place?
fn is_before(node: &Node, place: usize, column: Column) -> bool
    ensures { result ≡ contains (spec.columns_before (node_of node.now) place) (column_number column) }
{
    let inputs = inputs_of(node);
    let end = place.min(inputs.len());
    has_column(&inputs[..end], column)
}

/// The input in a place, where it is a bar column that no input before it is.
pub(crate) fn new_column(node: &Node, place: usize) -> Option<Column>
    ensures { result ≡ spec.new_column (node_of node.now) place }
{
    match input_at(node, place) {
        Some(Input::Column(column)) => unless(is_before(node, place, column), column),
        _ => None,
    }
}

fn unless(is: bool, column: Column) -> Option<Column>
    ensures { result ≡ spec.unless is column }
{
    if is { None } else { Some(column) }
}

fn place_among(inputs: &[Input], column: Column) -> usize
    ensures value { result ≡ spec.place_among (map input_of inputs.now) column }
    ensures within { result ≤ length inputs.now }
{
    match inputs {
        [] => 0,
        [first, rest @ ..] => {
            if is_column(*first, column) {
                0
            } else {
                place_among(rest, column) + 1
            }
        }
    }
}

/// The first place of a bar column that is an input.
pub(crate) fn place_of(node: &Node, column: Column) -> usize
    ensures { result ≡ spec.place_among (node_of node.now).inputs column }
{
    place_among(inputs_of(node), column)
}

/// How many places have a new bar column, of one.
pub(crate) fn one_new(node: &Node, place: usize) -> usize
    ensures value { result ≡ spec.one_new (spec.new_column (node_of node.now) place) }
    ensures few { result ≤ 1 }
{
    match new_column(node, place) {
        None => 0,
        Some(_) => 1,
    }
}

/// How many of the places before a place have a new bar column.
pub(crate) fn new_count(node: &Node, place: usize) -> usize
    requires { place ≤ 3 }
    ensures value { result ≡ spec.new_before (node_of node.now) place }
    ensures few { result ≤ place }
{
    let mut count = 0;
    for before in 0..place {
        count += one_new(node, before);
    }
    count
}
