//! Why a cell has its value: the lines of derivations with their text, and the least session that a value
//! needs.
#![tactic(auto)]

mod bars;
mod basis;
mod fact;
mod fact_numbers;
mod inputs;
mod judge;
mod reads;
mod records;
mod rows;
mod sections;
mod value;
mod views;
mod walk;

pub use judge::first_wrong;
pub use pl_derivation::{
    CellList, Derivation, ExplainError, Line, LinesError, SeenValueLine, ValueLine, print_lines,
    read_lines,
};
pub use pl_planner::reach_at;
pub use walk::explain_cell;
