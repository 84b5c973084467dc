//! The logarithm, the exponential, the root and the sign of a cell, the greater and the lesser of two cells.
//! No call takes memory.
#![tactic(auto)]

mod choices;
mod exponential;
mod logarithm;

pub use choices::{maximum, minimum, sign, sqrt};
pub use exponential::exp;
pub use logarithm::log;
