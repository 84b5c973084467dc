//! For whom a term is computed, for an asset on all sessions at once.
ghost use Rattle.std.specs.Prelude.{◌≡◌, ◌+◌, ◌<◌, ℕ, true, length, pos, get_or};
ghost use Rattle.pl_values.specs.Arrays.{chosen, is_kept};
ghost use Rattle.pl_exec.specs.Tasks.{sids_in};
ghost use Rattle.pl_exec.specs.ChunkInputs.{IsLane, node_in, task_in};

use crate::course::{Lane, on_session};
use crate::term_session::{choose, is_kept, lives};

// Is the asset in a place kept on all sessions of the course? Its life is one stretch, so it exists on all of
// them where it exists on the first and on the last. A mask is not looked at.
fn is_kept_throughout(lane: &Lane<'_>) -> bool
    requires lane { IsLane lane.now }
    ensures { result ≡ true → (j : ℕ) → j < lane.now.course.now.count → is_kept
        (task_in lane.now.course.now).world (task_in lane.now.course.now).pipeline
        (sids_in (task_in lane.now.course.now)) (node_in lane.now.course.now).mask lane.now.i
        (lane.now.course.now.low + j) ≡ true }
{
    let course = lane.course;
    match lane.sources.mask {
        None => {
            lives(&on_session(course, 0), lane.i)
                && lives(&on_session(course, course.count - 1), lane.i)
        }
        Some(_) => false,
    }
}

// Puts the empty value on the sessions on which an asset is not kept, one by one.
fn keep_cells(lane: &Lane<'_>, out: &mut [i64])
    requires lane { IsLane lane.now }
    requires long { length out.old ≡ lane.now.course.now.count }
    ensures long { length out.new ≡ length out.old }
    ensures each { (j : ℕ) → j < lane.now.course.now.count → get_or out.new j (pos 0) ≡ chosen
        (is_kept (task_in lane.now.course.now).world (task_in lane.now.course.now).pipeline
        (sids_in (task_in lane.now.course.now)) (node_in lane.now.course.now).mask lane.now.i
        (lane.now.course.now.low + j)) (get_or out.old j (pos 0)) lane.now.course.now.empty }
{
    for j in 0..out.len() {
        let keep = is_kept(&on_session(lane.course, j), &lane.sources.mask, lane.i);
        out[j] = choose(keep, out[j], lane.course.empty);
    }
}

/// Puts the empty value on the sessions on which an asset is not kept.
pub(crate) fn keep_lane(lane: &Lane<'_>, out: &mut [i64])
    requires lane { IsLane lane.now }
    requires long { length out.old ≡ lane.now.course.now.count }
    ensures long { length out.new ≡ length out.old }
    ensures each { (j : ℕ) → j < lane.now.course.now.count → get_or out.new j (pos 0) ≡ chosen
        (is_kept (task_in lane.now.course.now).world (task_in lane.now.course.now).pipeline
        (sids_in (task_in lane.now.course.now)) (node_in lane.now.course.now).mask lane.now.i
        (lane.now.course.now.low + j)) (get_or out.old j (pos 0)) lane.now.course.now.empty }
{
    if !is_kept_throughout(lane) {
        keep_cells(lane, out);
    }
}
