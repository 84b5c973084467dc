//! The families of kinds.
ghost use Rattle.std.specs.Prelude.{◌≡◌, ◌<◌, length};
ghost use Rattle.pl_pipeline.specs.Term.{term_at, IsGraph};
ghost use Rattle.pl_pipeline.specs.Value.{number_of, empty, sort_kind};
ghost use Rattle.pl_terms.specs.Kinds.{kind_of};
ghost use Rattle.pl_terms.specs.Nodes.{graph_of};
ghost use Rattle.pl_values.specs.Families.{IsOf, empty_number};

use pl_fixed::MISSING;
use pl_terms::{Family, Graph, Sort, TermId, TermKind, kind_row, sorting_kind};

/// The family of a kind.
pub fn family_of(kind: &TermKind) -> Family
    ensures { IsOf (kind_of kind.now) result }
{
    kind_row(kind).family
}

/// What an array holds where the term has no value, since the asset does not exist on the session or the
/// term's mask is false: 0 for a filter, and else `MISSING`. It depends on what the term is, which a
/// downsampled one has from its input.
pub fn empty_value(graph: &Graph, t: TermId) -> i64
    requires { t.0 < length graph.now }
    ensures { result ≡ number_of (empty (sort_kind (term_at (graph_of graph.now) t.0))) }
{
    match sorting_kind(graph, t) {
        Some(kind) => empty_of(kind),
        None => MISSING,
    }
}

// What stands in the place of a value of a sort.
fn empty_number(sort: Sort) -> i64
    ensures { result ≡ empty_number sort }
{
    match sort {
        Sort::Filters => 0,
        _ => MISSING,
    }
}

// The same of a kind.
fn empty_of(kind: &TermKind) -> i64
    ensures { result ≡ number_of (empty (kind_of kind.now)) }
{
    empty_number(kind_row(kind).sort)
}
