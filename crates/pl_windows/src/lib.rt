//! The windows of a bar column, session by session and asset by asset, as lines that tell of each window what
//! the one before it does not have: its newest cell, or all its cells where others changed.
#![tactic(auto)]

mod asked;
mod buffers;
mod change;
mod chunk;
pub mod laws;
mod line;
mod run;
mod session;

pub use asked::Asked;
pub use run::write_windows;
