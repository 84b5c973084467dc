//! What is told of the values of a group.
ghost use Rattle.std.specs.Prelude.{◌≡◌, ◌≤◌, ◌<◌, pos, [], All, length};
ghost use Rattle.pl_spec.specs.Limits.{most_assets};
ghost use Rattle.pl_spec.specs.Rounding.{quot, to_cell};
ghost use Rattle.pl_spec.specs.Cells.{total};
ghost use Rattle.pl_pipeline.specs.Formula.{spread};
ghost use Rattle.pl_pipeline.specs.Cross as spec;
ghost use Rattle.pl_pipeline.specs.Cross.{values};
ghost use Rattle.pl_pipeline.specs.Kind.CrossKind.{Summarize};
ghost use Rattle.pl_cross.specs.Section.{IsRight};
ghost use Rattle.pl_cross.specs.Listing.{entries_of, HasCell, HaveOwnPlaces};

use crate::listing::Listed;
use crate::means::{center, spread, total};
use crate::points::{percentile, value_at};
use pl_fixed::{MISSING, quot, to_cell};
use pl_pipeline::Summary;

// The millionths of a unit.
const MILLION: usize = 1_000_000;

// The mean of the values.
fn mean(group: &[Listed]) -> i64
    requires few { length group.now ≤ most_assets }
    requires cells { All HasCell group.now }
    ensures { result ≡ quot (total (values (entries_of group.now))) (pos (length (values (entries_of group.now)))) }
{
    quot(total(group), group.len() as i128)
}

// The sum of the values, where it is a cell.
fn sum(group: &[Listed]) -> i64
    requires few { length group.now ≤ most_assets }
    requires cells { All HasCell group.now }
    ensures { result ≡ to_cell (total (values (entries_of group.now))) }
{
    to_cell(total(group))
}

// The standard deviation of the values.
fn deviation(group: &[Listed]) -> i64
    requires few { length group.now ≤ most_assets }
    requires some { 0 < length group.now }
    requires cells { All HasCell group.now }
    ensures { result ≡ to_cell (pos (spread (values (entries_of group.now)))) }
{
    to_cell(spread(group, center(group)) as i128)
}

/// What is told of the values of a group.
pub(crate) fn summarize(summary: Summary, group: &[Listed], scratch: &mut [Listed]) -> i64
    requires right { IsRight (Summarize summary) }
    requires few { length group.now ≤ most_assets }
    requires cells { All HasCell group.now }
    requires own { HaveOwnPlaces group.now }
    requires room { length group.now ≤ length scratch.old }
    ensures { result ≡ spec.summary summary (values (entries_of group.now)) }
{
    if group.is_empty() {
        of_none(summary)
    } else {
        of_some(summary, group, scratch)
    }
}

// What is told of values of which there are some.
#[tactic(auto, unfolding(pl_pipeline::specs::Cross::summary))]
fn of_some(summary: Summary, group: &[Listed], scratch: &mut [Listed]) -> i64
    requires right { IsRight (Summarize summary) }
    requires few { length group.now ≤ most_assets }
    requires some { 0 < length group.now }
    requires cells { All HasCell group.now }
    requires own { HaveOwnPlaces group.now }
    requires room { length group.now ≤ length scratch.old }
    ensures { result ≡ spec.summary summary (values (entries_of group.now)) }
{
    match summary {
        Summary::Mean => mean(group),
        Summary::StdDev => deviation(group),
        Summary::Sum => sum(group),
        Summary::Least => value_at(group, scratch, 0),
        Summary::Greatest => value_at(group, scratch, group.len() - 1),
        Summary::Median => percentile(5_000, group, scratch),
        Summary::Percentile { percent } => percentile(percent, group, scratch),
        Summary::NotNullCount => (group.len() * MILLION) as i64,
    }
}

/// What is told of no values.
#[tactic(auto, unfolding(pl_pipeline::specs::Cross::summary, pl_spec::specs::Rounding::quot))]
pub(crate) fn of_none(summary: Summary) -> i64
    ensures { result ≡ spec.summary summary [] }
{
    match summary {
        Summary::NotNullCount => 0,
        Summary::Mean
        | Summary::StdDev
        | Summary::Sum
        | Summary::Least
        | Summary::Greatest
        | Summary::Median
        | Summary::Percentile { .. } => MISSING,
    }
}
