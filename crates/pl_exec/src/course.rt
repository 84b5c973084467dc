//! One term on all its sessions.
ghost use Rattle.std.specs.Prelude.{◌≡◌, ◌<◌, Some, length, slice_get};
ghost use Rattle.pl_terms.specs.Nodes.{node_of};
ghost use Rattle.pl_values.specs.Arrays.{empty_cell};
ghost use Rattle.pl_exec.specs.Tasks.{graph_in};
ghost use Rattle.pl_exec.specs.ChunkInputs.{IsCourse, AreChunkInputs, IsRun, IsTermSession, course_at, task_of, session_in};

use crate::chunk_inputs::{ChunkInputs, low_of};
use crate::term_session::TermSession;
use crate::windows::Sources;
use pl_terms::{Node, TermId};
use pl_values::empty_value;
use pl_workspace::Workspace;

/// Term `term`, which is `node`, on `count` sessions from `low` on; `empty` is its empty value.
#[derive(Clone, Copy)]
pub(crate) struct Course<'t> {
    pub(crate) chunk: &'t ChunkInputs<'t>,
    pub(crate) term: TermId,
    pub(crate) node: &'t Node,
    pub(crate) workspace: &'t Workspace,
    pub(crate) empty: i64,
    pub(crate) low: usize,
    pub(crate) count: usize,
}

/// The asset in a place on all the sessions of a course, and where the windows of the inputs lie.
#[derive(Clone, Copy)]
pub(crate) struct Lane<'t> {
    pub(crate) course: &'t Course<'t>,
    pub(crate) sources: &'t Sources<'t>,
    pub(crate) i: usize,
}

// The empty value of a term.
fn empty_of(chunk: &ChunkInputs<'_>, term: TermId) -> i64
    requires { term.0 < length (graph_in (task_of chunk.now)) }
    ensures { result ≡ empty_cell (task_of chunk.now).pipeline term.0 }
{
    empty_value(chunk.checked.graph(), term)
}

/// A used term, over the arrays in a workspace.
pub(crate) fn course_of<'t>(
    chunk: &'t ChunkInputs<'t>,
    term: TermId,
    node: &'t Node,
    workspace: &'t Workspace,
) -> Course<'t>
    requires chunk { AreChunkInputs chunk.now }
    requires run { IsRun (task_of chunk.now) workspace.now term.0 }
    requires node { slice_get (graph_in (task_of chunk.now)) term.0 ≡ Some (node_of node.now) }
    ensures is { result ≡ course_at chunk.entry term node.entry workspace.entry }
    ensures course { IsCourse result }
{
    let low = low_of(chunk, term);
    Course {
        chunk,
        term,
        node,
        workspace,
        empty: empty_of(chunk, term),
        low,
        count: chunk.to + 1 - low,
    }
}

/// The term on a session of its course.
pub(crate) fn on_session<'t>(course: &Course<'t>, j: usize) -> TermSession<'t>
    requires course { IsCourse course.now }
    requires session { j < course.now.count }
    ensures is { result ≡ session_in course.now j }
    ensures term_session { IsTermSession result }
{
    TermSession {
        chunk: course.chunk,
        term: course.term,
        node: course.node,
        session: course.low + j,
        workspace: course.workspace,
        empty: course.empty,
    }
}
