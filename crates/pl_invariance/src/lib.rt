//! What changes no value, in the field's words: laws of the definitions in `pl_spec` and `pl_pipeline`.
//!
//! No proof of code can find a wrong definition. These laws say what a user takes for granted of the results,
//! whatever the program does, and a definition that breaks one is refused. The functions do nothing: the
//! contract of each is a law, which is in `specs/`. No other crate calls them. Worked rows are in
//! `proofs/Worked`.
#![tactic(auto)]

pub mod laws;
