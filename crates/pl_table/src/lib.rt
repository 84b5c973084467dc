//! The text of a table: its header, and a line for each row of sessions whose values are in a workspace. The
//! parts of a line are for rows whose values are elsewhere. Also the line of a run's numbers.
#![tactic(auto)]

mod asked;
mod error;
mod existence;
mod fields;
mod header;
mod line;
mod numbers;
mod outcome;
mod place;
mod rows;
mod tile;
mod totals;
mod writing;

pub use asked::{Asked, is_asked};
pub use error::RunError;
pub use fields::{put_cell, put_date, put_end, put_sid};
pub use header::make_header;
pub use line::Line;
pub use numbers::{Numbers, write_numbers, write_stats};
pub use outcome::Outcome;
pub use rows::write_rows;
pub use tile::tile_len;
pub use totals::Totals;
pub use writing::{Writing, writing_of};
