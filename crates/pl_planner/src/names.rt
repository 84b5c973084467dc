//! The names under which the text of a plan has bar columns and kinds.

ghost use Rattle.std.specs.Prelude.{◌≡◌};
ghost use Rattle.pl_spec.specs.Names.{column_name};
ghost use Rattle.pl_terms.specs.Kinds.{kind_of};
ghost use Rattle.pl_planner.specs.Names.{kind_name};

use pl_spec::Column;
use pl_terms::{TermKind, kind_row};

pub(crate) fn column_name(column: Column) -> &'static str
    ensures { result.now ≡ column_name column }
{
    match column {
        Column::OpenPrice => "open",
        Column::High => "high",
        Column::Low => "low",
        Column::Close => "close",
        Column::Volume => "volume",
    }
}

/// The name of a kind, which is the same for all its parameters.
#[tactic(auto, unfolding(crate::specs::Names::kind_name))]
pub(crate) fn kind_name(kind: &TermKind) -> &'static str
    ensures { result.now ≡ kind_name (kind_of kind.now) }
{
    kind_row(kind).name
}
