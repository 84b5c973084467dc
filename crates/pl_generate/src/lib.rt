//! The stated world: a large world that anyone can make anew from a number. It is declared in pl_bench, which
//! runs a pipeline over it, and passed on here.
#![tactic(auto)]

pub use pl_bench::{ASSETS, Draws, SESSIONS, make_world};
