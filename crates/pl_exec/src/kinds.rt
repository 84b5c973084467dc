//! The cells of one term on one session, family by family of kinds.
ghost use Rattle.std.specs.Prelude.{◌≡◌, ◌+◌, ◌<◌, ◌≤◌, true, Some, length, slice_get};
ghost use Rattle.pl_pipeline.specs.Kind.Kind.{Downsample};
ghost use Rattle.pl_pipeline.specs.Term.Input.{TermInput};
ghost use Rattle.pl_terms.specs.Sorts.{is_downsampled};
ghost use Rattle.pl_cross.specs.Section.{is_section};
ghost use Rattle.pl_values.specs.Families.{IsOf};
ghost use Rattle.pl_exec.specs.Tasks.{assets_in};
ghost use Rattle.pl_exec.specs.ChunkInputs.{IsKept, IsRowOfTerm, IsTermSession, by_rows, node_at, task_at};

use crate::term_session::{TermSession, cells_on, input_row, term_row};
use pl_cross::Cross;
use pl_fixed::Frequency;
use pl_terms::{Input, TermId};
use pl_values::{Family, group_of, input_at, keep_values, kind_of, section_values};

fn section_row(
    term_session: &TermSession<'_>,
    cross: &mut Cross,
    values: &mut [i64],
    groups: &mut [i64],
    keep: &[i64],
    out: &mut [i64],
)
    requires term_session { IsTermSession term_session.now }
    requires kind { is_section (node_at term_session.now).kind ≡ true }
    requires cross { assets_in (task_at term_session.now) ≤ cross.old }
    requires values { length values.old ≡ assets_in (task_at term_session.now) }
    requires groups { length groups.old ≡ assets_in (task_at term_session.now) }
    requires keep { IsKept term_session.now keep.now }
    requires long { length out.old ≡ assets_in (task_at term_session.now) }
    ensures out { IsRowOfTerm term_session.now out.new }
    ensures cross { cross.new ≡ cross.old }
{
    input_row(term_session, 0, values);
    match group_of(term_session.node) {
        Some(group) => {
            term_row(term_session, group, groups);
            section_values(
                kind_of(term_session.node),
                cross,
                values,
                keep,
                Some(groups),
                out,
            );
        }
        None => section_values(kind_of(term_session.node), cross, values, keep, None, out),
    }
}

// The input of a downsampled term.
fn downsampled_input(term_session: &TermSession<'_>) -> TermId
    requires term_session { IsTermSession term_session.now }
    requires kind { is_downsampled (node_at term_session.now).kind ≡ true }
    ensures { slice_get (node_at term_session.now).inputs 0 ≡ Some (TermInput result.0) }
{
    match input_at(term_session.node, 0) {
        Some(Input::Term(term)) => term,
        Some(Input::Column(_)) => unreachable!(),
        None => unreachable!(),
    }
}

// The cells that the input has on the first session of the period.
fn downsampled_row(
    term_session: &TermSession<'_>,
    frequency: Frequency,
    keep: &[i64],
    out: &mut [i64],
)
    requires term_session { IsTermSession term_session.now }
    requires kind { (node_at term_session.now).kind ≡ Downsample frequency }
    requires keep { IsKept term_session.now keep.now }
    requires long { length out.old ≡ assets_in (task_at term_session.now) }
    ensures { IsRowOfTerm term_session.now out.new }
{
    let chunk = term_session.chunk;
    let start = chunk
        .world
        .sessions
        .period_start(frequency, term_session.session);
    cells_on(term_session, downsampled_input(term_session), start, out);
    keep_values(keep, term_session.empty, out);
}

/// Do the cells of the family's kinds come row by row? Those of the others come asset by asset.
pub(crate) fn is_by_rows(family: Family) -> bool
    ensures { result ≡ by_rows family }
{
    match family {
        Family::Section => true,
        Family::Downsample(_) => true,
        _ => false,
    }
}

/// The cells of the term on the session.
pub(crate) fn kind_row(
    term_session: &TermSession<'_>,
    family: Family,
    cross: &mut Cross,
    first: &mut [i64],
    second: &mut [i64],
    keep: &[i64],
    out: &mut [i64],
)
    requires term_session { IsTermSession term_session.now }
    requires family { IsOf (node_at term_session.now).kind family }
    requires rows { by_rows family ≡ true }
    requires cross { assets_in (task_at term_session.now) ≤ cross.old }
    requires first { length first.old ≡ assets_in (task_at term_session.now) }
    requires second { length second.old ≡ assets_in (task_at term_session.now) }
    requires keep { IsKept term_session.now keep.now }
    requires long { length out.old ≡ assets_in (task_at term_session.now) }
    ensures out { IsRowOfTerm term_session.now out.new }
    ensures cross { cross.new ≡ cross.old }
{
    match family {
        Family::Section => section_row(term_session, cross, first, second, keep, out),
        Family::Downsample(frequency) => downsampled_row(term_session, frequency, keep, out),
        _ => unreachable!(),
    }
}
