//! How many sessions a pipeline reads of a bar column and of a term, day by day.
ghost use Rattle.std.specs.Prelude.{◌≡◌, ◌<◌, ◌^◌, ℕ, filter_map, get_or, length, map, max, IfOk, OnOk};
ghost use Rattle.pl_pipeline.specs.Graph.{contains, input_number};
ghost use Rattle.pl_planner.specs.Cones.{pairs_of};
ghost use Rattle.pl_terms.specs.Checked.{pipeline_of};
ghost use Rattle.pl_terms.specs.Kinds.{kind_of};
ghost use Rattle.pl_terms.specs.Nodes.{input_of, node_of};
ghost use Rattle.pl_terms.specs.Sorts.{is_windowed};
ghost use Rattle.pl_terms.specs.Uses as uses;
ghost use Rattle.pl_daily.specs.Capacities as spec;
ghost use Rattle.pl_daily.specs.Inside.{AreDepths, IsNumber, used_depth, used_sessions};

use pl_fixed::{Column, Memory};
use pl_planner::{ConeTerm, cone_at, count, has_column, node_at};
use pl_terms::{Checked, Input, Node, TermId, TermKind};
use pl_values::{Family, family_of};
use std::alloc::Global;

// Is one of the inputs the term?
fn has_term(inputs: &[Input], t: TermId) -> bool
    ensures { result ≡ contains (filter_map input_number (map input_of inputs.now)) t.0 }
{
    match inputs {
        [] => false,
        [Input::Column(_), rest @ ..] => has_term(rest, t),
        [Input::Term(own), rest @ ..] => own.0 == t.0 || has_term(rest, t),
    }
}

fn is_windowed(kind: &TermKind) -> bool
    ensures { result ≡ is_windowed (kind_of kind.now) }
{
    match family_of(kind) {
        Family::Window => true,
        _ => false,
    }
}

// Does a node that is read up to so many sessions before the last one read the rings of the term?
#[tactic(auto, unfolding(pl_terms::specs::Nodes::node_of))]
fn reads_term(node: &Node, t: TermId, depth: usize) -> bool
    ensures { result ≡ spec.reads_term t.0 depth (node_of node.now) }
{
    (is_windowed(&node.kind) || depth > 0) && has_term(node.inputs.as_slice(), t)
}

// Does it read them as those of its mask?
#[tactic(auto, unfolding(pl_terms::specs::Nodes::node_of))]
fn is_masked_by(node: &Node, t: TermId, depth: usize) -> bool
    ensures { result ≡ spec.is_masked_by t.0 depth (node_of node.now) }
{
    match node.mask {
        Some(mask) => depth > 0 && mask.0 == t.0,
        None => false,
    }
}

// How many sessions it reads of the input.
#[tactic(auto, unfolding(pl_terms::specs::Nodes::node_of))]
fn sessions_read(node: &Node, input: Input, depth: usize) -> usize
    requires { depth < 2 ^ 32 }
    ensures { result ≡ spec.sessions_read (input_of input) depth (node_of node.now) }
{
    let window = node.window as usize + depth;
    match input {
        Input::Column(column) => {
            if has_column(node.inputs.as_slice(), column) {
                window
            } else {
                0
            }
        }
        Input::Term(term) => {
            if reads_term(node, term, depth) {
                window
            } else if is_masked_by(node, term, depth) {
                depth + 1
            } else {
                0
            }
        }
    }
}

/// Is the term of a number used?
pub(crate) fn is_used(checked: &Checked, k: usize) -> bool
    requires { IsNumber (pipeline_of checked.now) k }
    ensures { result ≡ uses.is_used (pipeline_of checked.now) k }
{
    checked.is_used(TermId(k as u8))
}

// Makes depths as great as those of a cone.
fn deepen(depths: &mut [usize], cone: &[ConeTerm])
    ensures long { length depths.new ≡ length depths.old }
    ensures each { (u : ℕ) → u < length depths.old
        → get_or depths.new u 0 ≡ max (get_or depths.old u 0) (spec.depth_in u (pairs_of cone.now)) }
{
    if let [first, rest @ ..] = cone {
        deepen(depths, rest);
        let own = first.term.0 as usize;
        if own < depths.len() {
            depths[own] = depths[own].max(first.depth);
        }
    }
}

// The depths of those of the term's cone, where it is used.
fn deepen_by(alloc: Global, checked: &Checked, k: usize, depths: &mut [usize]) -> Result<(), Memory>
    requires { IsNumber (pipeline_of checked.now) k }
    ensures long { length depths.new ≡ length depths.old }
    ensures each { OnOk result ((u : ℕ) → u < length depths.old
        → get_or depths.new u 0 ≡ max (get_or depths.old u 0) (used_depth (pipeline_of checked.now) u k)) }
{
    if is_used(checked, k) {
        let cone = cone_at(alloc, checked.graph(), TermId(k as u8))?;
        deepen(depths, &cone);
    }
    Ok(())
}

/// By number, on how many sessions before the last one a term is read as it is seen on the last. The only
/// error is want of memory.
pub(crate) fn depths_of(alloc: Global, checked: &Checked) -> Result<Vec<usize>, Memory>
    ensures { IfOk result (λ depths. AreDepths (pipeline_of checked.now) depths.items) }
{
    let terms = count(checked);
    let mut depths = vec![in alloc; 0; terms]?;
    for k in 0..terms {
        deepen_by(alloc, checked, k, &mut depths)?;
    }
    Ok(depths)
}

// How many sessions a number's term reads of the input where it is used.
fn sessions_by(checked: &Checked, depths: &[usize], k: usize, input: Input) -> usize
    requires number { IsNumber (pipeline_of checked.now) k }
    requires depths { AreDepths (pipeline_of checked.now) depths.now }
    ensures { result ≡ used_sessions (input_of input) (pipeline_of checked.now) k }
{
    if is_used(checked, k) {
        sessions_read(node_at(checked, k), input, depths[k])
    } else {
        0
    }
}

// The most that a used term reads of the input; 0 where none does.
fn most_read(checked: &Checked, depths: &[usize], input: Input) -> usize
    requires { AreDepths (pipeline_of checked.now) depths.now }
    ensures { result ≡ spec.most_read (input_of input) (pipeline_of checked.now) }
{
    let mut most = 0;
    for k in 0..count(checked) {
        most = most.max(sessions_by(checked, depths, k, input));
    }
    most
}

/// How many sessions before the last one are read of the bar column; 0 where no used term reads it.
#[tactic(auto, unfolding(crate::specs::Capacities::column_window))]
pub(crate) fn column_window(checked: &Checked, depths: &[usize], column: Column) -> usize
    requires { AreDepths (pipeline_of checked.now) depths.now }
    ensures { result ≡ spec.column_window (pipeline_of checked.now) column }
{
    most_read(checked, depths, Input::Column(column))
}

/// How many sessions up to the last one are read of the term's rings; 0 where nothing reads them.
#[tactic(auto, unfolding(crate::specs::Capacities::term_window))]
pub(crate) fn term_window(checked: &Checked, depths: &[usize], t: TermId) -> usize
    requires { AreDepths (pipeline_of checked.now) depths.now }
    ensures { result ≡ spec.term_window (pipeline_of checked.now) t.0 }
{
    most_read(checked, depths, Input::Term(t))
}
