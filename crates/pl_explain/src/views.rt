//! From where what a term reads is seen.

ghost use Rattle.std.specs.Prelude.{◌≡◌, ◌<◌, length, Some};
ghost use Rattle.pl_pipeline.specs.Term.{term_at};
ghost use Rattle.pl_pipeline.specs.Value.{is_steady};
ghost use Rattle.pl_terms.specs.Checked.{pipeline_of};
ghost use Rattle.pl_terms.specs.Kinds.{kind_of};
ghost use Rattle.pl_terms.specs.Nodes.{input_of};
ghost use Rattle.pl_world.specs.Views.{operand_view, window_view};
ghost use Rattle.pl_explain.specs.Reading.{is_steady_input, IsInGraph};

use pl_planner::steady_terms;
use pl_terms::{Checked, Input, TermId, TermKind};
use pl_values::keeps_values;

/// Whether a term is the same from wherever it is seen.
pub(crate) fn is_steady(checked: &Checked, t: TermId) -> bool
    requires { t.0 < length checked.now.graph }
    ensures { result ≡ is_steady (term_at (pipeline_of checked.now).graph t.0) }
{
    let steady = steady_terms(checked.graph());
    steady[t.0 as usize]
}

/// Whether an input is such a term.
pub(crate) fn is_steady_input(checked: &Checked, input: Input) -> bool
    requires { IsInGraph checked.now (Some input) }
    ensures { result ≡ is_steady_input (pipeline_of checked.now).graph (input_of input) }
{
    match input {
        Input::Column(_) => false,
        Input::Term(t) => is_steady(checked, t),
    }
}

/// The session from which a formula sees its windows.
pub(crate) fn window_view(kind: &TermKind, view: Option<u32>, session: u32) -> u32
    ensures { result ≡ window_view (kind_of kind.now) view session }
{
    if keeps_values(kind) {
        session
    } else {
        view.unwrap_or(session)
    }
}

/// From where an operation sees what it is of.
pub(crate) fn operand_view(kind: &TermKind, view: Option<u32>) -> Option<u32>
    ensures { result ≡ operand_view (kind_of kind.now) view }
{
    if keeps_values(kind) { None } else { view }
}
