//! A run over the stated world: a measure of a machine, and a check of the program that was built for it.
//!
//! The world of a number is made in memory, one pipeline is run over it as any other pipeline is, and the
//! numbers of that run are written. They depend on the number alone, so each build on each machine writes the
//! same line.
#![tactic(auto)]

mod adjusts;
mod bars;
mod draws;
pub mod laws;
mod pipeline;
mod run;
mod sectors;
mod sessions;
mod world;

pub use draws::Draws;
pub use pipeline::PIPELINE;
pub use run::bench;
pub use world::{ASSETS, SESSIONS, make_world};
