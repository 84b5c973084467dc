//! How many sessions before each session of a range the terms are computed for it.

ghost use Rattle.std.specs.Prelude.{◌≡◌, ◌++◌, ◌+◌, ◌-◌, ◌<◌, ◌≤◌, IfOk, OnOk, length, map};
ghost use Rattle.pl_terms.specs.Checked.{pipeline_of};
ghost use Rattle.pl_terms.specs.Uses.{outputs};
ghost use Rattle.pl_planner.specs.Asked.{AreAsked};
ghost use Rattle.pl_planner.specs.Rows.{AreRows, extra_in, most_extra};

use crate::pipeline::count;
use crate::uses::{Use, gather};
use pl_calendar::Sessions;
use pl_terms::Checked;
use std::alloc::{AllocError, Global};

fn extra_in(own: &Use) -> usize
    ensures { result ≡ extra_in own.now }
{
    if own.used { own.extra } else { 0 }
}

// The numbers of one session, by term.
fn push_row(extras: &mut Vec<usize>, uses: &[Use]) -> Result<(), AllocError>
    ensures { OnOk result (extras.new.items ≡ extras.old.items ++ map extra_in uses.now) }
{
    for own in uses {
        extras.push(extra_in(own))?;
    }
    Ok(())
}

/// The numbers for each session from one to another, session by session.
pub(crate) fn gather_rows(
    alloc: Global,
    checked: &Checked,
    sessions: &Sessions,
    from: usize,
    to: usize,
) -> Result<Vec<usize>, AllocError>
    requires asked { AreAsked sessions.now (pipeline_of checked.now) }
    requires order { from ≤ to }
    requires within { to < length sessions.now }
    ensures { IfOk result (λ extras. AreRows sessions.now (pipeline_of checked.now).graph
        (outputs (pipeline_of checked.now)) from (to + 1 - from) extras.items) }
{
    let mut extras = Vec::new(alloc);
    for session in from..to + 1 {
        let uses = gather(alloc, checked, sessions, session, None)?;
        push_row(&mut extras, &uses)?;
    }
    Ok(extras)
}

/// The greatest of these numbers.
pub(crate) fn most_extra(extras: &[usize]) -> usize
    ensures { result ≡ most_extra extras.now }
{
    let mut most = 0;
    for extra in extras {
        most = most.max(*extra);
    }
    most
}
