//! From which session on a term reaches no session below 0.
ghost use Rattle.std.specs.Prelude.{◌≡◌, ℤ, ◌<ℤ◌, ◌≤◌, ◌<◌, pos, AllPairs, None, List, [], ◌∷◌, ◌++◌, get_or, length, map, option_map, option_to_list};
ghost use Rattle.std.specs.List.{list_all};
ghost use Rattle.std.specs.Int.RustNames.{int_le};
ghost use Rattle.pl_pipeline.specs.Lows.{least_reach};
ghost use Rattle.pl_terms.specs.Checked.{IsChecked, columns_of, pipeline_of};
ghost use Rattle.pl_terms.specs.Nodes.{input_of, node_of, number_of};
ghost use Rattle.pl_terms.specs.Uses.{outputs};
ghost use Rattle.pl_daily.specs.Inside.{IsNumber};
ghost use Rattle.pl_daily.specs.Reaches.{AreFirst, FollowFirst};
ghost use Rattle.pl_daily.specs.Ready as spec;

use crate::capacities::is_used;
use pl_planner::{count, node_at};
use pl_terms::{Checked, Input, Node, TermId, frequency_of};

// Is the term's first session at least so many sessions before a session?
fn is_since(since: &[Option<usize>], t: TermId, back: usize, session: usize) -> bool
    ensures { result ≡ spec.is_since (get_or since.now t.0 None) back session }
{
    match since.get(t.0 as usize) {
        Some(Some(first)) => *first <= session && back <= session - *first,
        _ => false,
    }
}

// A window of bars ends on the session before.
fn is_input_ready(since: &[Option<usize>], input: Input, window: usize, session: usize) -> bool
    requires { 1 ≤ window }
    ensures { result ≡ spec.is_input_ready since.now window session (input_of input) }
{
    match input {
        Input::Column(_) => window <= session,
        Input::Term(t) => is_since(since, t, window - 1, session),
    }
}

fn are_inputs_ready(
    since: &[Option<usize>],
    inputs: &[Input],
    window: usize,
    session: usize,
) -> bool
    requires { 1 ≤ window }
    ensures { result ≡ list_all (spec.is_input_ready since.now window session) (map input_of inputs.now) }
{
    match inputs {
        [] => true,
        [first, rest @ ..] => {
            is_input_ready(since, *first, window, session)
                && are_inputs_ready(since, rest, window, session)
        }
    }
}

fn is_number_ready(since: &[Option<usize>], number: Option<TermId>, session: usize) -> bool
    ensures { result ≡ spec.is_number_ready since.now session (option_map number_of number) }
{
    match number {
        Some(t) => is_since(since, t, 0, session),
        None => true,
    }
}

// The session up to which a node reads its inputs for a session whose period begins with `start`.
#[tactic(auto, unfolding(pl_terms::specs::Nodes::node_of))]
fn read_up_to(node: &Node, start: usize, session: usize) -> usize
    ensures { result ≡ spec.read_up_to start session (node_of node.now).kind }
{
    match frequency_of(&node.kind) {
        Some(_) => start,
        None => session,
    }
}

#[tactic(auto, unfolding(pl_terms::specs::Nodes::node_of))]
fn is_node_ready(since: &[Option<usize>], node: &Node, start: usize, session: usize) -> bool
    requires { 1 ≤ (node_of node.now).window }
    ensures { result ≡ spec.is_node_ready since.now start session (node_of node.now) }
{
    let last = read_up_to(node, start, session);
    are_inputs_ready(since, node.inputs.as_slice(), node.window as usize, last)
        && is_number_ready(since, node.mask, session)
        && is_number_ready(since, node.group, session)
}

// Is the term of a number used, and does it reach no session below 0 for the session numbered `fed`?
fn is_used_ready(
    checked: &Checked,
    since: &[Option<usize>],
    k: usize,
    start: usize,
    fed: usize,
) -> bool
    requires { IsNumber (pipeline_of checked.now) k }
    ensures { result ≡ spec.is_used_ready (pipeline_of checked.now) since.now k start fed }
{
    is_node_ready(since, node_at(checked, k), start, fed) && is_used(checked, k)
}

// The first session of a number's term, of the session numbered `fed` and those before it.
fn first_of(
    checked: &Checked,
    since: &[Option<usize>],
    k: usize,
    start: usize,
    fed: usize,
) -> Option<usize>
    requires number { IsNumber (pipeline_of checked.now) k }
    requires since { length since.now ≡ length (pipeline_of checked.now).graph }
    ensures { result ≡ spec.first_with (get_or since.now k None)
        (spec.is_used_ready (pipeline_of checked.now) since.now k start fed) fed }
{
    match since[k] {
        Some(first) => Some(first),
        None if is_used_ready(checked, since, k, start, fed) => Some(fed),
        None => None,
    }
}

/// Takes in the session numbered `fed`, before which as many were taken in. For each used term by its number,
/// `since` has the first session for which it reaches no session below 0, and `None` where there was none so
/// far. For each used term that is downsampled, `starts` has the first session of this session's period. It
/// takes no memory.
pub fn advance_reaches(checked: &Checked, starts: &[usize], fed: usize, since: &mut [Option<usize>])
    requires starts { length starts.now ≡ length (pipeline_of checked.now).graph }
    requires since { length since.old ≡ length (pipeline_of checked.now).graph }
    ensures long { length since.new ≡ length since.old }
    ensures follow { FollowFirst (pipeline_of checked.now) starts.now fed since.old since.new }
{
    for k in 0..count(checked) {
        since[k] = first_of(checked, since, k, starts[k], fed);
    }
}

// Has the term its first session?
fn has_first(since: &[Option<usize>], t: TermId) -> bool
    ensures { result ≡ spec.has_first since.now t.0 }
{
    match since.get(t.0 as usize) {
        Some(Some(_)) => true,
        _ => false,
    }
}

// Have the terms of all columns theirs?
fn columns_have_first(checked: &Checked, since: &[Option<usize>]) -> bool
    ensures { result ≡ list_all (spec.has_first since.now)
        (map (λ c. c.term) (columns_of checked.now.columns)) }
{
    for i in 0..checked.columns() {
        if !has_first(since, checked.column_term(i)) {
            return false;
        }
    }
    true
}

fn screen_has_first(checked: &Checked, since: &[Option<usize>]) -> bool
    ensures { result ≡ list_all (spec.has_first since.now)
        (option_to_list (option_map number_of checked.now.screen)) }
{
    match checked.screen() {
        Some(t) => has_first(since, t),
        None => true,
    }
}

/// Do all outputs reach no session below 0 for the last session that was taken in?
pub(crate) fn is_ready(checked: &Checked, since: &[Option<usize>]) -> bool
    requires { IsChecked (pipeline_of checked.now) }
    ensures { (earlier : List ℤ) (day : ℤ) → AllPairs (λ a b. a <ℤ b) (earlier ++ day ∷ [])
        → AreFirst (earlier ++ day ∷ []) (pipeline_of checked.now) since.now
        → result ≡ int_le (pos 0) (least_reach (earlier ++ day ∷ []) (pipeline_of checked.now).graph
        (outputs (pipeline_of checked.now)) (pos (length earlier))) }
{
    columns_have_first(checked, since) && screen_has_first(checked, since)
}
