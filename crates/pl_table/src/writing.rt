//! How the values of a term are written.
ghost use Rattle.std.specs.Prelude.{◌≡◌, ◌<◌, Some, length, slice_get};
ghost use Rattle.pl_terms.specs.Kinds.{kind_of};
ghost use Rattle.pl_terms.specs.Nodes.{graph_of};
ghost use Rattle.pl_terms.specs.Sorts.{sort_at, sort_of};
ghost use Rattle.pl_terms.specs.Checked.{pipeline_of};
ghost use Rattle.pl_table.specs.Fields.{sort_written};
ghost use Rattle.pl_table.specs.Writings.{AreWritings};

use pl_terms::{Checked, Graph, Sort, TermId, TermKind, kind_row, sorting_kind};

/// The form of a value: the cell of a factor with six decimals, `true` or `false` of a filter, the whole
/// number of a numbered classifier, or the text of a label.
#[derive(Clone, Copy, Debug, PartialEq, Eq)]
pub enum Writing {
    Cell,
    Truth,
    Whole,
    Label,
}

/// How the values of each column are written. There are at most 64.
pub(crate) fn writings_of(checked: &Checked) -> [Writing; 64]
    ensures { AreWritings (pipeline_of checked.now) result }
{
    let graph = checked.graph();
    let mut writings = [Writing::Cell; 64];
    for column in 0..checked.columns() {
        writings[column] = writing_of(graph, checked.column_term(column));
    }
    writings
}

/// How the values of a term are written: a downsampled one's as its input's.
pub fn writing_of(graph: &Graph, term: TermId) -> Writing
    requires { term.0 < length graph.now }
    ensures { sort_at (graph_of graph.now) term.0 ≡ Some (sort_written result) }
{
    match sorting_kind(graph, term) {
        Some(kind) => writing_of_kind(kind),
        None => Writing::Cell,
    }
}

#[tactic(auto, unfolding(pl_terms::specs::Sorts::sort_of))]
fn writing_of_kind(kind: &TermKind) -> Writing
    ensures { sort_of (kind_of kind.now) ≡ sort_written result }
{
    match kind_row(kind).sort {
        Sort::Factors => Writing::Cell,
        Sort::Filters => Writing::Truth,
        Sort::Numbers => Writing::Whole,
        Sort::Labels => Writing::Label,
    }
}
