//! One term on one session: what it reads there, and for whom it is computed.
ghost use Rattle.std.specs.Prelude.{◌≡◌, ◌+◌, ◌<◌, ◌≤◌, ℕ, All, Some, length, pos, get_or, slice_get};
ghost use Rattle.pl_spec.specs.Rounding.{IsCell};
ghost use Rattle.pl_spec.specs.World.{exists};
ghost use Rattle.pl_pipeline.specs.Term.Input.{TermInput};
ghost use Rattle.pl_cross.specs.Arrays.{sid_in};
ghost use Rattle.pl_values.specs.Arrays.{Fills, IsKeep, chosen, is_kept};
ghost use Rattle.pl_values.specs.Inputs.{IsInputRow};
ghost use Rattle.pl_exec.specs.Tasks.{assets_in, cell_in, sids_in};
ghost use Rattle.pl_exec.specs.ChunkInputs.{IsKept, IsMaskLent, IsReach, IsRead, IsTermLent, IsTermSession, node_at, passes, task_at};

use crate::chunk_inputs::{Array, ChunkInputs, array_of, cell_at, cells_up_to};
use pl_terms::{Input, Node, TermId};
use pl_values::{input_at, is_one, keep_values, mask_of, truth_of, window_of};
use pl_workspace::Workspace;

/// Term `term`, which is `node`, on a session; `empty` is its empty value.
#[derive(Clone, Copy)]
pub(crate) struct TermSession<'t> {
    pub(crate) chunk: &'t ChunkInputs<'t>,
    pub(crate) term: TermId,
    pub(crate) node: &'t Node,
    pub(crate) session: usize,
    pub(crate) workspace: &'t Workspace,
    pub(crate) empty: i64,
}

/// A cell where an asset is kept, and else the empty value.
pub(crate) fn choose(keep: bool, cell: i64, empty: i64) -> i64
    ensures { result ≡ chosen keep cell empty }
{
    if keep { cell } else { empty }
}

// Does the asset in a place exist on the session of the day?
fn exists(term_session: &TermSession<'_>, day: i32, i: usize) -> bool
    requires term_session { IsTermSession term_session.now }
    requires day { slice_get (task_at term_session.now).world.days term_session.now.session ≡ Some day }
    requires asset { i < assets_in (task_at term_session.now) }
    ensures { result ≡ exists (task_at term_session.now).world (sid_in (sids_in (task_at term_session.now)) i)
        (pos term_session.now.session) }
{
    let chunk = term_session.chunk;
    chunk.world.assets.exists(chunk.cols[i] as usize, day)
}

// Does the asset in a place pass the mask, if there is one?
fn passes(term_session: &TermSession<'_>, mask: &Option<Array<'_>>, i: usize) -> bool
    requires term_session { IsTermSession term_session.now }
    requires mask { IsMaskLent (task_at term_session.now) (node_at term_session.now).mask mask.now }
    requires asset { i < assets_in (task_at term_session.now) }
    ensures { result ≡ passes (task_at term_session.now) (node_at term_session.now).mask i
        term_session.now.session }
{
    match mask {
        None => true,
        Some(array) => is_one(array.cells[i * array.count + (term_session.session - array.low)]),
    }
}

/// Does the asset in a place exist on the session?
pub(crate) fn lives(term_session: &TermSession<'_>, i: usize) -> bool
    requires term_session { IsTermSession term_session.now }
    requires asset { i < assets_in (task_at term_session.now) }
    ensures { result ≡ exists (task_at term_session.now).world (sid_in (sids_in (task_at term_session.now)) i)
        (pos term_session.now.session) }
{
    let chunk = term_session.chunk;
    let day = chunk.world.sessions.day(term_session.session);
    exists(term_session, day, i)
}

/// Is the asset in a place kept on the session: does it exist, and pass the mask?
pub(crate) fn is_kept(term_session: &TermSession<'_>, mask: &Option<Array<'_>>, i: usize) -> bool
    requires term_session { IsTermSession term_session.now }
    requires mask { IsMaskLent (task_at term_session.now) (node_at term_session.now).mask mask.now }
    requires asset { i < assets_in (task_at term_session.now) }
    ensures { result ≡ is_kept (task_at term_session.now).world (task_at term_session.now).pipeline
        (sids_in (task_at term_session.now)) (node_at term_session.now).mask i term_session.now.session }
{
    if lives(term_session, i) {
        passes(term_session, mask, i)
    } else {
        false
    }
}

// Who exists on the session.
fn existing_row(term_session: &TermSession<'_>, keep: &mut [i64])
    requires term_session { IsTermSession term_session.now }
    requires long { length keep.old ≡ assets_in (task_at term_session.now) }
    ensures { IsKeep (λ i. exists (task_at term_session.now).world
        (sid_in (sids_in (task_at term_session.now)) i)
        (pos term_session.now.session)) (assets_in (task_at term_session.now)) keep.new }
{
    let chunk = term_session.chunk;
    let day = chunk.world.sessions.day(term_session.session);
    for i in 0..keep.len() {
        keep[i] = truth_of(exists(term_session, day, i));
    }
}

/// The cells of a term on a session that its array has.
pub(crate) fn cells_on(
    term_session: &TermSession<'_>,
    term: TermId,
    session: usize,
    row: &mut [i64],
)
    requires term_session { IsTermSession term_session.now }
    requires read { IsRead (task_at term_session.now) term_session.now.workspace.now session 1 term.0 }
    requires late { session ≤ term_session.now.chunk.now.to }
    requires long { length row.old ≡ assets_in (task_at term_session.now) }
    ensures { Fills (λ i. cell_in (task_at term_session.now) term.0 i session)
        (assets_in (task_at term_session.now))
        row.new }
{
    let array = array_of(term_session.chunk, term_session.workspace, term);
    let at = session - array.low;
    for i in 0..row.len() {
        row[i] = cell_at(&array, i, at);
    }
}

/// The cells of a term that is read on the session.
pub(crate) fn term_row(term_session: &TermSession<'_>, term: TermId, row: &mut [i64])
    requires term_session { IsTermSession term_session.now }
    requires read { IsRead (task_at term_session.now) term_session.now.workspace.now
        term_session.now.session 1 term.0 }
    requires long { length row.old ≡ assets_in (task_at term_session.now) }
    ensures { Fills (λ i. cell_in (task_at term_session.now) term.0 i term_session.now.session)
        (assets_in (task_at term_session.now))
        row.new }
{
    cells_on(term_session, term, term_session.session, row);
}

/// Who is kept: who exists on the session and passes the term's mask. The row `mask` is for the mask's cells.
pub(crate) fn keep_row(term_session: &TermSession<'_>, mask: &mut [i64], keep: &mut [i64])
    requires term_session { IsTermSession term_session.now }
    requires mask { length mask.old ≡ assets_in (task_at term_session.now) }
    requires long { length keep.old ≡ assets_in (task_at term_session.now) }
    ensures mask { length mask.new ≡ length mask.old }
    ensures keep { IsKept term_session.now keep.new }
{
    existing_row(term_session, keep);
    if let Some(term) = mask_of(term_session.node) {
        term_row(term_session, term, mask);
        keep_values(mask, 0, keep);
    }
}

/// The cells of an input that is a term; any other input leaves the row.
pub(crate) fn input_row(term_session: &TermSession<'_>, place: usize, row: &mut [i64])
    requires term_session { IsTermSession term_session.now }
    requires long { length row.old ≡ assets_in (task_at term_session.now) }
    ensures long { length row.new ≡ length row.old }
    ensures row { IsInputRow (task_at term_session.now).world (task_at term_session.now).pipeline
        (sids_in (task_at term_session.now))
        (assets_in (task_at term_session.now)) (slice_get (node_at term_session.now).inputs place)
        term_session.now.session row.new }
{
    if let Some(Input::Term(term)) = input_at(term_session.node, place) {
        term_row(term_session, term, row);
    }
}

/// The cells of a term in its windows on the session and on `more` later ones.
pub(crate) fn term_reach<'t>(
    term_session: &TermSession<'_>,
    array: &Array<'t>,
    i: usize,
    more: usize,
) -> &'t [i64]
    requires term_session { IsTermSession term_session.now }
    requires lent { (u : ℕ) × IsTermLent term_session.now u array.now }
    requires asset { i < assets_in (task_at term_session.now) }
    requires late { term_session.now.session + more ≤ term_session.now.chunk.now.to }
    ensures value { (u : ℕ) → IsTermLent term_session.now u array.now
        → IsReach term_session.now (Some (TermInput u)) i more result.now }
    ensures cells { All IsCell result.now }
{
    let last = term_session.session + more - array.low;
    cells_up_to(array, i, last, window_of(term_session.node) + more)
}
