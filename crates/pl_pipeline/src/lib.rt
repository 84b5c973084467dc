//! What pipelines mean: the kinds of terms with their formulas, cross-sections, terms and their graph, values,
//! tables and their text. They stand on the definitions of worlds (`pl_spec`).
//!
//! The definitions are in `specs/`; docs/DEFINITIONS.md has their heart. The types here are those that both
//! the definitions and the code speak of; the crates that they belong to export them. The laws of the
//! definitions are the crate `pl_laws`.
#![tactic(auto)]

/// Which rank equal values have: places of their own by ascending sid, the least or the greatest of their
/// places, one place for each distinct value, or the average of their places. These are the methods of
/// Zipline's `Factor.rank`.
#[derive(Clone, Copy, Debug, PartialEq, Eq)]
pub enum RankMethod {
    Ordinal,
    Min,
    Max,
    Dense,
    Average,
}

/// Whether the least value or the greatest has the first rank, which is 1.
#[derive(Clone, Copy, Debug, PartialEq, Eq)]
pub enum RankOrder {
    Ascending,
    Descending,
}

/// What is told of the values of a list; docs/TERMS.md has the formulas. `percent` is hundredths of a percent.
#[derive(Clone, Copy, Debug)]
pub enum Summary {
    Mean,
    StdDev,
    Sum,
    Least,
    Greatest,
    Median,
    Percentile { percent: u32 },
    NotNullCount,
}

/// A formula or a filter over a window, with its parameters; docs/TERMS.md has the formulas. `k` and `decay` are
/// millionths, `percent` hundredths of a percent.
#[derive(Clone, Copy, Debug)]
pub enum WindowKind {
    Latest,
    SimpleMovingAverage,
    LinearWeightedMovingAverage,
    WindowSum,
    WindowMax,
    WindowMin,
    WindowStd,
    BollingerMiddle,
    BollingerLower { k: i64 },
    BollingerUpper { k: i64 },
    Returns,
    PercentChange,
    RateOfChangePercentage,
    RSI,
    VWAP,
    AverageDollarVolume,
    WeightedAverageValue,
    FastStochasticOscillator,
    TrueRange,
    ExponentialWeightedMovingAverage { decay: i64 },
    AroonUp,
    AroonDown,
    Correlation,
    Covariance,
    RegressionSlope,
    RegressionIntercept,
    RegressionError,
    WindowPercentile { percent: u32 },
    WindowRank,
    WindowArgMax,
    WindowArgMin,
    WindowFirst,
    MaxDrawdown,
    RankCorrelation,
    All,
    Any,
    AtLeastN { n: u32 },
    AllPresent,
    WindowSlope,
    WindowResidual,
    WindowRSquared,
    ExponentialWeightedMovingMean { decay: i64 },
    ExponentialWeightedMovingStdDev { decay: i64 },
    WindowSkewness,
    WindowKurtosis,
}
