//! Which terms are used, how far back, and by which term last, from the users down to their inputs.

ghost use Rattle.std.specs.Prelude.{◌≡◌, ℕ, All, IfSome, option_map, option_to_list, replicate, ◌+◌, ◌<◌, ◌≤◌, ◌^◌, IfOk, length, map, slice_set, filter_map, fold, get_or};
ghost use Rattle.pl_pipeline.specs.Kind.Kind.{Downsample};
ghost use Rattle.pl_pipeline.specs.Term.{MentionsBelow};
ghost use Rattle.pl_terms.specs.Checked.{IsChecked, columns_of, pipeline_of};
ghost use Rattle.pl_terms.specs.Nodes.{input_of, node_of, number_of};
ghost use Rattle.pl_terms.specs.Uses.{outputs};
ghost use Rattle.pl_planner.specs.Asked.{AreAsked, wanted};
ghost use Rattle.pl_planner.specs.Extra.{IsBelow, asks, back_from, input_ask, number_asks};
ghost use Rattle.pl_planner.specs.Uses.{AreUses, HaveExtras, all_asked, all_marked, marked, raised, unused, use_at};

use crate::pipeline::{count, node_at};
use pl_calendar::Sessions;
use pl_spec::Frequency;
use pl_terms::{Checked, Input, Node, TermId, frequency_of};
use std::alloc::{AllocError, Global};

/// What the used terms ask of a term.
#[derive(Clone, Copy)]
pub(crate) struct Use {
    pub(crate) used: bool,
    /// So many sessions before the session.
    pub(crate) extra: usize,
    /// The last used term that mentions it, or the number of all terms where it is an output.
    pub(crate) last: usize,
}

pub(crate) const UNUSED: Use = Use {
    used: false,
    extra: 0,
    last: 0,
};

/// The use of a number.
pub(crate) fn use_of(uses: &[Use], t: usize) -> Use
    ensures { result ≡ use_at uses.now t }
{
    if t < uses.len() { uses[t] } else { UNUSED }
}

fn ask(uses: &mut [Use], term: TermId, by: usize, extra: usize)
    requires within { number_of term < length uses.old }
    ensures { uses.new ≡ slice_set uses.old (number_of term)
        (raised (use_at uses.old (number_of term)) by extra) }
{
    let t = term.0 as usize;
    let old = uses[t];
    uses[t] = if old.used {
        Use {
            used: true,
            extra: old.extra.max(extra),
            last: old.last.max(by),
        }
    } else {
        Use {
            used: true,
            extra,
            last: by,
        }
    };
}

// The same for a downsampled term, which reads the first session of the period; before the calendar there
// are no periods.
fn back_to_start(sessions: &Sessions, frequency: Frequency, session: usize, extra: usize) -> usize
    requires { session < length sessions.now }
    ensures { result ≡ back_from sessions.now session (Downsample frequency) extra }
{
    if extra > session {
        return extra;
    }
    session - sessions.period_start(frequency, session - extra)
}

/// How many sessions before a session a node reads its inputs, up to which its windows go, where it is
/// computed `extra` sessions before that session.
#[tactic(auto, unfolding(pl_terms::specs::Nodes::node_of))]
pub fn back_from(sessions: &Sessions, node: &Node, session: usize, extra: usize) -> usize
    requires { session < length sessions.now }
    ensures { result ≡ back_from sessions.now session (node_of node.now).kind extra }
{
    match frequency_of(&node.kind) {
        Some(frequency) => back_to_start(sessions, frequency, session, extra),
        None => extra,
    }
}

fn ask_input(uses: &mut [Use], input: Input, window: u32, by: usize, back: usize)
    requires window { 1 ≤ window }
    requires room { back + window < 2 ^ 63 }
    requires lower { IsBelow (length uses.old) (input_of input) }
    ensures { uses.new ≡ all_asked uses.old by (option_to_list (input_ask back window (input_of input))) }
{
    if let Input::Term(term) = input {
        ask(uses, term, by, back + (window as usize - 1));
    }
}

fn ask_inputs(uses: &mut [Use], node: &Node, by: usize, back: usize)
    requires window { 1 ≤ node.now.window }
    requires room { back + node.now.window < 2 ^ 63 }
    requires lower { MentionsBelow (node_of node.now) (length uses.old) }
    ensures { uses.new ≡ all_asked uses.old by
        (filter_map (input_ask back node.now.window) (map input_of node.now.inputs)) }
{
    for input in node.inputs.as_slice() {
        ask_input(uses, *input, node.window, by, back);
    }
}

fn ask_number(uses: &mut [Use], number: Option<TermId>, by: usize, extra: usize)
    requires lower { IfSome number (λ t. number_of t < length uses.old) }
    ensures { uses.new ≡ all_asked uses.old by (number_asks extra (option_map number_of number)) }
{
    if let Some(term) = number {
        ask(uses, term, by, extra);
    }
}

/// What a node asks of the terms that it mentions, where it is computed `extra` sessions early.
#[tactic(auto, unfolding(pl_terms::specs::Nodes::node_of))]
pub(crate) fn ask_all(
    uses: &mut [Use],
    node: &Node,
    sessions: &Sessions,
    session: usize,
    by: usize,
    extra: usize,
)
    requires within { session < length sessions.now }
    requires window { 1 ≤ node.now.window }
    requires room { back_from sessions.now session (node_of node.now).kind extra + node.now.window < 2 ^ 63 }
    requires lower { MentionsBelow (node_of node.now) (length uses.old) }
    ensures { uses.new ≡ all_asked uses.old by (asks sessions.now session (node_of node.now) extra) }
{
    ask_inputs(uses, node, by, back_from(sessions, node, session, extra));
    ask_number(uses, node.mask, by, extra);
    ask_number(uses, node.group, by, extra);
}

fn mark(uses: &mut [Use], term: TermId, terms: usize)
    requires within { number_of term < length uses.old }
    ensures { uses.new ≡ marked terms uses.old (number_of term) }
{
    uses[term.0 as usize] = Use {
        used: true,
        extra: 0,
        last: terms,
    };
}

fn mark_columns(uses: &mut [Use], checked: &Checked, terms: usize)
    requires checked { IsChecked (pipeline_of checked.now) }
    requires long { length uses.old ≡ length (pipeline_of checked.now).graph }
    ensures { uses.new ≡ all_marked uses.old terms (map (λ c. c.term) (columns_of checked.now.columns)) }
{
    for i in 0..checked.columns() {
        mark(uses, checked.column_term(i), terms);
    }
}

// The columns' terms and the screen are used on the first session, and to the end.
fn mark_outputs(uses: &mut [Use], checked: &Checked, terms: usize)
    requires checked { IsChecked (pipeline_of checked.now) }
    requires long { length uses.old ≡ length (pipeline_of checked.now).graph }
    ensures { uses.new ≡ all_marked uses.old terms (outputs (pipeline_of checked.now)) }
{
    mark_columns(uses, checked, terms);
    if let Some(screen) = checked.screen() {
        mark(uses, screen, terms);
    }
}

// The same of one term alone, or of all outputs.
fn mark_wanted(uses: &mut [Use], checked: &Checked, only: Option<TermId>, terms: usize)
    requires checked { IsChecked (pipeline_of checked.now) }
    requires only { IfSome only (λ t. number_of t < length (pipeline_of checked.now).graph) }
    requires long { length uses.old ≡ length (pipeline_of checked.now).graph }
    ensures { uses.new ≡ all_marked uses.old terms
        (wanted (pipeline_of checked.now) (option_map number_of only)) }
{
    match only {
        Some(term) => mark(uses, term, terms),
        None => mark_outputs(uses, checked, terms),
    }
}

// One pass from the last term to the first.
fn ask_down(
    uses: &mut [Use],
    checked: &Checked,
    sessions: &Sessions,
    session: usize,
    only: Option<TermId>,
)
    requires asked { AreAsked sessions.now (pipeline_of checked.now) }
    requires unused { uses.old ≡ replicate (length (pipeline_of checked.now).graph) unused }
    requires within { session < length sessions.now }
    requires only { IfSome only (λ t. number_of t < length (pipeline_of checked.now).graph) }
    ensures uses { AreUses (pipeline_of checked.now).graph
        (wanted (pipeline_of checked.now) (option_map number_of only)) uses.new }
    ensures extras { HaveExtras sessions.now session (pipeline_of checked.now).graph
        (wanted (pipeline_of checked.now) (option_map number_of only)) uses.new }
{
    let mut k = count(checked);
    mark_wanted(uses, checked, only, k);
    while k > 0 {
        k -= 1;
        let own = uses[k];
        if own.used {
            let node = node_at(checked, k);
            ask_all(uses, node, sessions, session, k, own.extra);
        }
    }
}

/// The uses of all terms, and the extra sessions of the used ones for a session, where one term alone or all
/// outputs are wanted.
pub(crate) fn gather(
    alloc: Global,
    checked: &Checked,
    sessions: &Sessions,
    session: usize,
    only: Option<TermId>,
) -> Result<Vec<Use>, AllocError>
    requires asked { AreAsked sessions.now (pipeline_of checked.now) }
    requires within { session < length sessions.now }
    requires only { IfSome only (λ t. number_of t < length (pipeline_of checked.now).graph) }
    ensures uses { IfOk result (λ uses. AreUses (pipeline_of checked.now).graph
        (wanted (pipeline_of checked.now) (option_map number_of only)) uses.items) }
    ensures extras { IfOk result (λ uses. HaveExtras sessions.now session (pipeline_of checked.now).graph
        (wanted (pipeline_of checked.now) (option_map number_of only)) uses.items) }
{
    let mut uses = vec![in alloc; UNUSED; count(checked)]?;
    ask_down(&mut uses, checked, sessions, session, only);
    Ok(uses)
}
