//! The laws of the definitions in `pl_spec`.
//!
//! The functions do nothing: the contract of each is a law, which is in `specs/`. No other crate calls them.
//! The worked rows of the definitions are in `proofs/Worked`.
#![tactic(auto)]

pub mod laws;
pub mod list_laws;
