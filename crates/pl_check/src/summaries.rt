//! Summaries, and shares of 1: what they are given.
ghost use Rattle.std.specs.Prelude.{◌≡◌, ◌<◌};
ghost use Rattle.pl_check.specs.Results as spec;
ghost use Rattle.pl_check.specs.Seen.{bounds_of};
ghost use Rattle.pl_check.specs.Standing.{AreSmall};

use crate::operation::Parameter;
use crate::results::percent_given;
use crate::rules::number_given;
use crate::value::Bound;
use pl_terms::Summary;

/// A share of 1, which is given in millionths.
pub(crate) fn share_given(bound: &[Bound], parameter: Parameter) -> u32
    requires { spec.share_given (bounds_of bound.now) parameter < 4294967296 }
    ensures { result ≡ spec.share_given (bounds_of bound.entry.now) parameter }
{
    number_given(bound, parameter).unsigned_abs() as u32
}

/// A summary with the percent that it is given.
pub(crate) fn with_percent(summary: Summary, bound: &[Bound]) -> Summary
    requires small { AreSmall (bounds_of bound.now) }
    ensures { result ≡ spec.with_percent summary (bounds_of bound.entry.now) }
{
    match summary {
        Summary::Percentile { .. } => Summary::Percentile {
            percent: percent_given(bound, Parameter::Percent),
        },
        _ => summary,
    }
}
