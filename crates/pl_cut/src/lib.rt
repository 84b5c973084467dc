//! The cut of a world: what of its rows a range of sessions reads, and that the range has the same table over
//! that part.
//!
//! The functions do nothing: the contract of each is a law, which is in `specs/`.
#![tactic(auto)]

pub mod laws;
