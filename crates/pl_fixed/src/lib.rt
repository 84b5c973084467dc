//! Fixed-point numbers: cells of millionths with exact arithmetic, ratios, the texts of cells, days, sids and
//! names, and the counter of steps. No call takes memory.
#![tactic(auto)]

mod cell;
mod day;
mod decimal;
mod digits;
mod known_date;
mod memory;
mod name;
mod ratio;
mod ready;
mod rounding;
mod sid;
mod steps;

pub use cell::{LIM, MISSING, add, div, is_cell, mul, neg, quot, sub, to_cell};
pub use day::{month_number, read_day, write_day};
pub use decimal::{DecimalFault, read_decimal, write_decimal};
pub use known_date::{KnownDate, LastDate};
pub use memory::Memory;
pub use name::is_name;
pub use pl_spec::{Column, Frequency};
pub use ratio::Ratio;
pub use ready::ReadyRatio;
pub use rounding::{div_round, isqrt};
pub use sid::read_sid;
pub use steps::Steps;
