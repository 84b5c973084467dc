//! What a text names of a few: a method of ranks, an order, a frequency, a unit of ages.
ghost use Rattle.std.specs.Prelude.{◌≡◌};
ghost use Rattle.pl_check.specs.Given as spec;

use pl_pipeline::{RankMethod, RankOrder};
use pl_spec::{Figure, Frequency};

/// The method of ranks that a text names.
#[tactic(auto, unfolding(crate::specs::Given::method_of))]
pub(crate) fn method_of(text: &[u8]) -> RankMethod
    ensures { result ≡ spec.method_of text.now }
{
    if text == b"min".as_slice() {
        RankMethod::Min
    } else if text == b"max".as_slice() {
        RankMethod::Max
    } else if text == b"dense".as_slice() {
        RankMethod::Dense
    } else if text == b"average".as_slice() {
        RankMethod::Average
    } else {
        RankMethod::Ordinal
    }
}

/// The order that a text names.
#[tactic(auto, unfolding(crate::specs::Given::order_of))]
pub(crate) fn order_of(text: &[u8]) -> RankOrder
    ensures { result ≡ spec.order_of text.now }
{
    if text == b"descending".as_slice() {
        RankOrder::Descending
    } else {
        RankOrder::Ascending
    }
}

/// What is read of a number for its age in the unit that a text names.
#[tactic(auto, unfolding(crate::specs::Given::figure_of))]
pub(crate) fn figure_of(text: &[u8]) -> Figure
    ensures { result ≡ spec.figure_of text.now }
{
    if text == b"business_days".as_slice() {
        Figure::BusinessDays
    } else {
        Figure::Days
    }
}

/// The frequency that a text names.
#[tactic(auto, unfolding(crate::specs::Given::frequency_of))]
pub(crate) fn frequency_of(text: &[u8]) -> Frequency
    ensures { result ≡ spec.frequency_of text.now }
{
    if text == b"year_start".as_slice() {
        Frequency::YearStart
    } else if text == b"quarter_start".as_slice() {
        Frequency::QuarterStart
    } else if text == b"month_start".as_slice() {
        Frequency::MonthStart
    } else {
        Frequency::WeekStart
    }
}
