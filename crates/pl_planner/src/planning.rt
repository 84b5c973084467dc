//! The plan of a run.
ghost use Rattle.std.specs.Prelude.{◌≡◌, ◌<◌, ◌≤◌, IfErr, IfOk, length};
ghost use Rattle.pl_terms.specs.Checked.{pipeline_of};
ghost use Rattle.pl_planner.specs.Plans.{IsPlanFault, IsPlanOf};

use crate::columns::bound_of;
use crate::cones::gather_cones;
use crate::holds::hold;
use crate::pipeline::are_asked;
use crate::plans::{Plan, PlanError};
use crate::reach::reach_of;
use crate::rows::{gather_rows, most_extra};
use crate::slots::slot_terms;
use crate::uses::gather;
use pl_calendar::Sessions;
use pl_terms::Checked;
use std::alloc::Global;

/// The greatest number of extra rows.
const MOST_ROWS: usize = 4096;

/// The plan of a pipeline for the sessions `from` to `to`, which are counted from 0 and both included. The
/// error says that a column or the screen needs a session before the first one, or a term more than 4,096
/// sessions before one of the range; or memory ran out.
pub fn plan(
    alloc: Global,
    checked: &Checked,
    sessions: &Sessions,
    from: usize,
    to: usize,
) -> Result<Plan, PlanError>
    requires order { from ≤ to }
    requires within { to < length sessions.now }
    ensures from { IfOk result (λ p. p.from ≡ from) }
    ensures to { IfOk result (λ p. p.to ≡ to) }
    ensures plan { IfOk result (λ p. IsPlanOf sessions.now (pipeline_of checked.now) p) }
    ensures fault { IfErr result (λ e. IsPlanFault sessions.now (pipeline_of checked.now) from to e) }
{
    are_asked(checked, sessions);
    let Ok(mut uses) = gather(alloc, checked, sessions, from, None) else {
        return Err(PlanError::Memory);
    };
    let reach = reach_of(checked, sessions, &uses, from);
    if reach < 0 {
        return Err(PlanError::TooEarly { reach });
    }
    let Ok(extras) = gather_rows(alloc, checked, sessions, from, to) else {
        return Err(PlanError::Memory);
    };
    let rows = most_extra(&extras);
    if rows > MOST_ROWS {
        return Err(PlanError::TooDeep { rows: rows as u64 });
    }
    let Ok(cones) = gather_cones(alloc, checked.graph()) else {
        return Err(PlanError::Memory);
    };
    hold(&mut uses, checked.graph(), &cones);
    let bound = bound_of(checked.graph(), &uses, &cones);
    let Ok(slots) = slot_terms(alloc, &uses) else {
        return Err(PlanError::Memory);
    };
    Ok(Plan {
        from,
        to,
        reach,
        bound,
        uses,
        extras,
        slots,
        cones,
    })
}
