//! What the files of a cut say: read again they are the cut, and a run over them prints the rows of the
//! whole.
//!
//! The functions do nothing: the contract of each is a law, which is in `specs/`.
#![tactic(auto)]

pub mod laws;
