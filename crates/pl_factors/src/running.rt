//! The sums that are kept, and the calls that choose among them by the kind.

ghost use Rattle.std.specs.Prelude.{◌≡◌, false, List, ℤ};
ghost use Rattle.pl_spec.specs.Rounding.{IsCell};
ghost use Rattle.pl_terms.specs.Kinds.{kind_of};
ghost use Rattle.pl_factors.specs.Kinds.{formula_of};
ghost use Rattle.pl_factors.specs.Kept.{Kept, nothing, kept_of};
ghost use Rattle.pl_factors.specs.Spans.{TakesWindows, TakesSpans, before, after};

use crate::best_places::{next_placed_best, numbered_place, place_value, placed_best};
use crate::extremes::{best_kept, next_kept, next_range, range_of};
use crate::formula;
use crate::spreads::{bollinger, deviation};
use crate::starts::{placed_of, spreads_of, sums_of, swings_of, weighted_of};
use crate::steps::{next_placed, next_spreads, next_sums, next_swings, next_weighted};
use crate::values::{
    all_present, at_least, average_dollar_volume, extreme, linear_weighted, mean,
    relative_strength, stochastic, weighted_mean, window_sum,
};
use pl_terms::TermKind;
use std::marker::Model;

/// What is kept of the windows of a formula for one asset: two sums and a count. It takes no memory.
#[derive(Drop)]
pub struct Running {
    pub(crate) main: i128,
    pub(crate) beside: i128,
    pub(crate) number: usize,
}

impl Model for Running {
    ghost use Rattle.pl_factors.specs.Kept.{Kept};

    ghost Value = { Kept };

    ghost view = { λ r. record { main = r.main; beside = r.beside; number = r.number } };
}

impl Running {
    /// What is kept of windows, oldest first, which the kind takes as `formula` does. This reads whole
    /// windows.
    #[tactic(auto, unfolding(pl_terms::specs::Kinds::kind_of, crate::specs::Kept::kept_of))]
    pub fn start(kind: &TermKind, a: &[i64], b: &[i64], c: &[i64]) -> Running
        requires { TakesWindows (kind_of kind.now) a.now b.now c.now }
        ensures { result ≡ kept_of (kind_of kind.now) a.now b.now c.now }
    {
        match kind {
            TermKind::SimpleMovingAverage | TermKind::BollingerMiddle | TermKind::WindowSum =>
                sums_of(a),
            TermKind::All | TermKind::Any | TermKind::AtLeastN { .. } | TermKind::AllPresent =>
                sums_of(a),
            TermKind::WindowStd => spreads_of(a),
            TermKind::BollingerLower { .. } | TermKind::BollingerUpper { .. } => spreads_of(a),
            TermKind::VWAP | TermKind::WeightedAverageValue => weighted_of(a, b),
            TermKind::AverageDollarVolume => weighted_of(a, b),
            TermKind::LinearWeightedMovingAverage => placed_of(a),
            TermKind::RSI => swings_of(a),
            TermKind::WindowMax => best_kept(false, a),
            TermKind::WindowMin => best_kept(true, a),
            TermKind::FastStochasticOscillator => range_of(b, c),
            TermKind::AroonUp | TermKind::WindowArgMax => placed_best(false, a),
            TermKind::AroonDown | TermKind::WindowArgMin => placed_best(true, a),
            _ => nothing(),
        }
    }

    /// The same of the windows one cell later. The windows before and after are one list for each input: all
    /// but its last cell, and all but its first. This reads the ends alone.
    #[tactic(auto, unfolding(pl_terms::specs::Kinds::kind_of, crate::specs::Kept::kept_of))]
    pub fn slide(&mut self, kind: &TermKind, a: &[i64], b: &[i64], c: &[i64])
        requires spans { TakesSpans (kind_of kind.now) a.now b.now c.now }
        requires stands { self.old ≡ kept_of (kind_of kind.now) (before a.now) (before b.now) (before c.now) }
        ensures { self.new ≡ kept_of (kind_of kind.now) (after a.now) (after b.now) (after c.now) }
    {
        *self = match kind {
            TermKind::SimpleMovingAverage | TermKind::BollingerMiddle | TermKind::WindowSum =>
                next_sums(self, a),
            TermKind::All | TermKind::Any | TermKind::AtLeastN { .. } | TermKind::AllPresent =>
                next_sums(self, a),
            TermKind::WindowStd => next_spreads(self, a),
            TermKind::BollingerLower { .. } | TermKind::BollingerUpper { .. } => next_spreads(
                self, a,
            ),
            TermKind::VWAP | TermKind::WeightedAverageValue => next_weighted(self, a, b),
            TermKind::AverageDollarVolume => next_weighted(self, a, b),
            TermKind::LinearWeightedMovingAverage => next_placed(self, a),
            TermKind::RSI => next_swings(self, a),
            TermKind::WindowMax => next_kept(false, self, a),
            TermKind::WindowMin => next_kept(true, self, a),
            TermKind::FastStochasticOscillator => next_range(self, b, c),
            TermKind::AroonUp | TermKind::WindowArgMax => next_placed_best(false, self, a),
            TermKind::AroonDown | TermKind::WindowArgMin => next_placed_best(true, self, a),
            _ => nothing(),
        };
    }

    /// The value of the formula over windows that this stands for, a cell in millionths: what `formula` and
    /// `window_filter` give. A formula of which nothing is kept is computed anew.
    #[tactic(auto, unfolding(pl_pipeline::specs::Formula::formula, pl_terms::specs::Kinds::kind_of, crate::specs::Kept::kept_of))]
    pub fn value(&self, kind: &TermKind, a: &[i64], b: &[i64], c: &[i64]) -> i64
        requires windows { TakesWindows (kind_of kind.now) a.now b.now c.now }
        requires stands { self.now ≡ kept_of (kind_of kind.now) a.now b.now c.now }
        ensures value { result ≡ formula_of (kind_of kind.now) a.now b.now c.now }
        ensures cell { IsCell result }
    {
        match kind {
            TermKind::SimpleMovingAverage | TermKind::BollingerMiddle => mean(self, a),
            TermKind::WindowSum => window_sum(self, a),
            TermKind::All => at_least(self, a.len(), a),
            TermKind::Any => at_least(self, 1, a),
            TermKind::AtLeastN { n } => at_least(self, *n as usize, a),
            TermKind::AllPresent => all_present(self, a),
            TermKind::WindowStd => deviation(self, a),
            TermKind::BollingerLower { k } => bollinger(true, self, a, *k),
            TermKind::BollingerUpper { k } => bollinger(false, self, a, *k),
            TermKind::VWAP | TermKind::WeightedAverageValue => weighted_mean(self, a, b),
            TermKind::AverageDollarVolume => average_dollar_volume(self, a, b),
            TermKind::LinearWeightedMovingAverage => linear_weighted(self, a),
            TermKind::RSI => relative_strength(self, a),
            TermKind::WindowMax | TermKind::WindowMin => extreme(self),
            TermKind::FastStochasticOscillator => stochastic(self, a),
            TermKind::AroonUp | TermKind::AroonDown => place_value(self, a),
            TermKind::WindowArgMax | TermKind::WindowArgMin => numbered_place(self, a),
            _ => formula(kind, a, b, c),
        }
    }
}

// Nothing is kept.
fn nothing() -> Running
    ensures { result ≡ nothing }
{
    Running {
        main: 0,
        beside: 0,
        number: 0,
    }
}

/// Is anything kept of the windows of a kind? Where it is not, a step takes as long as the formula anew.
#[tactic(auto, unfolding(pl_terms::specs::Kinds::kind_of, crate::specs::Kept::kept_of))]
pub fn keeps(kind: &TermKind) -> bool
    ensures { result ≡ false
        → (a b c : List ℤ) → kept_of (kind_of kind.now) a b c ≡ nothing }
{
    match kind {
        TermKind::Latest
        | TermKind::Returns
        | TermKind::PercentChange
        | TermKind::RateOfChangePercentage
        | TermKind::ExponentialWeightedMovingAverage { .. }
        | TermKind::Correlation
        | TermKind::Covariance
        | TermKind::RegressionSlope
        | TermKind::RegressionIntercept
        | TermKind::RegressionError
        | TermKind::WindowPercentile { .. }
        | TermKind::WindowRank
        | TermKind::WindowFirst
        | TermKind::MaxDrawdown
        | TermKind::RankCorrelation
        | TermKind::TrueRange
        | TermKind::WindowSlope
        | TermKind::WindowResidual
        | TermKind::WindowRSquared
        | TermKind::ExponentialWeightedMovingMean { .. }
        | TermKind::ExponentialWeightedMovingStdDev { .. }
        | TermKind::WindowSkewness
        | TermKind::WindowKurtosis => false,
        _ => true,
    }
}
