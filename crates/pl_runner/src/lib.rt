//! The table of a range of sessions. In chunks: which sessions each has, for which assets it is computed, and
//! how much memory the largest one needs. Or day by day: a world that is fed to a pipeline session by session.
#![tactic(auto)]

mod buffers;
mod columns;
mod daily;
mod feed;
mod lows;
mod news;
mod pieces;
mod release;
mod room;
mod rows;
mod run;
mod session;
mod state;

pub use daily::run_daily;
pub use pl_spec::Format;
pub use pl_table::RunError;
pub use run::{RunReport, run_table};
