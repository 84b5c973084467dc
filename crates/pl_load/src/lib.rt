//! From the files and tables of a command to what it works on: each is read whole and judged before the next
//! one is begun. What it is judged to be is here too: the faults with their statuses and lines, the work of a
//! command in its order, and the range of a run.
//!
//! The definitions that a reader of the top call needs stand in `specs`: `Faults` (statuses and lines),
//! `Contents` (what files and tables hold), `Held` (what that is read as), `Work` (the steps and the first
//! fault), `Range` and `Ends`.
#![tactic(auto)]

mod cell_place;
mod cells;
mod derivations;
mod errors;
mod fault;
mod inputs;
mod limits;
mod line;
mod loading;
mod numbered;
mod payouts;
mod planning;
mod range;
mod tables;
mod windows;

pub use cell_place::{CellPlace, judge_cell};
pub use cells::{LoadedCell, load_cell};
pub use derivations::{LoadedDerivation, load_derivation};
pub use fault::{Fault, Limit, RowFault, RuleFault, SyntaxFault};
pub use inputs::{read_checked, read_script};
pub use limits::{FILE_CAP, PIPELINE_CAP, cap_of, limit_of};
pub use line::write_line;
pub use loading::{Loaded, load};
pub use numbered::judge_numbers;
pub use payouts::{LoadedPayouts, load_payouts};
pub use pl_records::DataFault;
pub use planning::{PlannedPipeline, load_plan};
pub use range::{Range, judge_dates, judge_plan};
pub use windows::{LoadedWindows, load_windows};
