//! The top call: it reads the words and the files that they name, judges them in order, and writes the text
//! of the command.
//!
//! Its contract says which bytes `out` and `err` take and which status is answered, for whatever the parts
//! outside hold.
#![tactic(auto)]

mod cells;
mod commands;
mod daily;
mod derivations;
mod parts;
mod payouts;
mod present;
mod stated;
mod top;
mod windows;

pub use top::{Outcome, run_program, work_on};
