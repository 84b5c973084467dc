//! Derivations, which say why a cell has its value: the facts that it rests on, which lines of a list are
//! right, and the lines with their text, which is printed and read. And why there is none.
#![tactic(auto)]

mod error;
pub mod laws;
mod line;
mod number;
mod print;
mod read;

pub use error::ExplainError;
pub use line::{CellList, Derivation, Line, MOST_LINES, SeenValueLine, ValueLine};
pub use print::print_lines;
pub use read::{LinesError, read_lines};
