//! The inputs of downsampled terms on the first sessions of periods.
ghost use Rattle.std.specs.Prelude.{◌≡◌, ◌<◌, ℕ, true, false, List, length, option_map, IfSome, IfNone};
ghost use Rattle.pl_spec.specs.declared.Frequency.{Frequency};
ghost use Rattle.pl_spec.specs.Dates.{IsDay};
ghost use Rattle.pl_terms.specs.Nodes.{node_of, number_of};
ghost use Rattle.pl_terms.specs.Sorts as sorts;
ghost use Rattle.pl_terms.specs.Uses.{is_used};
ghost use Rattle.pl_daily.specs.Days.{FedDay};
ghost use Rattle.pl_daily.specs.Terms.{AreTerms, Downsamples, FollowStart, IsAt, IsStartRoom};
ghost use Rattle.pl_daily.specs.Terms.{assets_at, begins, pipeline_at};

use crate::term_day::TermCells;
use crate::terms::Lent;
use pl_calendar::period_of;
use pl_fixed::Frequency;
use pl_terms::{Input, Node, TermId, frequency_of};

/// What is held of a downsampled term: the cells of its input on the first session of the last day's period,
/// one for each asset, and that session. Other terms have no cells here.
#[derive(Drop)]
pub struct StartCells {
    pub row: Vec<i64>,
    pub session: usize,
}

// Whether the day is of another period than the last one, or the first of all.
fn begins_period(frequency: Frequency, last: Option<i32>, day: i32) -> bool
    requires day { IsDay day }
    requires last { IfSome last IsDay }
    ensures { result ≡ begins frequency last day }
{
    match last {
        Some(last) => period_of(frequency, last) != period_of(frequency, day),
        None => true,
    }
}

// The first input where it is a term.
#[tactic(auto, unfolding(pl_terms::specs::Nodes::node_of))]
fn first_term(node: &Node) -> Option<TermId>
    ensures { option_map number_of result ≡ sorts.first_term (node_of node.now).inputs }
{
    match node.inputs.as_slice() {
        [Input::Term(term), ..] => Some(*term),
        _ => None,
    }
}

// The input of a used term that is downsampled, where the day begins a period.
fn started_input(lent: &Lent<'_>, term: TermId) -> Option<TermId>
    requires used { is_used (pipeline_at lent.now) term.0 ≡ true }
    requires known { term.0 < length lent.now.checked.now.graph }
    requires day { IsDay lent.now.day }
    requires last { IfSome lent.now.last IsDay }
    ensures some { IfSome result (λ input. (f : Frequency)
        × Downsamples (pipeline_at lent.now) term.0 f input.0
        × (begins f lent.now.last lent.now.day ≡ true)) }
    ensures below { IfSome result (λ input. (input.0 < term.0)
        × (is_used (pipeline_at lent.now) input.0 ≡ true)) }
    ensures none { IfNone result ((f : Frequency) (u : ℕ) → Downsamples (pipeline_at lent.now) term.0 f u
        → begins f lent.now.last lent.now.day ≡ false) }
{
    let node = lent.checked.graph().node(term);
    let frequency = frequency_of(&node.kind)?;
    if begins_period(frequency, lent.last, lent.day) {
        first_term(node)
    } else {
        None
    }
}

/// Keeps the cells of the input of a downsampled term where the day begins a period; the terms below have the
/// day already.
pub(crate) fn take_start(lent: &Lent<'_>, terms: &[TermCells], term: TermId, start: &mut StartCells)
    requires placed { (next : FedDay) × (days : List FedDay)
        × IsAt lent.now term.0 terms.now start.old days next days }
    requires terms { AreTerms (assets_at lent.now) (pipeline_at lent.now) lent.now.bars.now terms.now }
    requires start { IsStartRoom (assets_at lent.now) (pipeline_at lent.now) term.0 start.old }
    requires used { is_used (pipeline_at lent.now) term.0 ≡ true }
    requires known { term.0 < length lent.now.checked.now.graph }
    ensures follow { FollowStart lent.now term.0 terms.now start.old start.new }
    ensures start { IsStartRoom (assets_at lent.now) (pipeline_at lent.now) term.0 start.new }
{
    if let Some(input) = started_input(lent, term) {
        start.row.copy_from_slice(&terms[input.0 as usize].row);
        start.session = lent.fed;
    }
}
