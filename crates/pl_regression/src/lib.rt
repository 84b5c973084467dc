//! The correlation and the regression of the values of two windows, and the correlation of their ranks.
#![tactic(auto)]

mod formulas;
mod pairs;
mod ranks;
mod trends;

pub use formulas::{correlation, covariance, intercept, root, slope, slope_error};
pub use pairs::PairSums;
pub use ranks::{rank_correlation, twice_rank};
pub use trends::{r_squared, residual, steepness};
