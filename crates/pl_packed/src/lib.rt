//! Bars that were judged once, as bytes: they are written after the days and sids that they were judged
//! against, and read back without judging a text again.
#![tactic(auto)]

mod bar;
mod error;
mod head;
mod order;
mod packing;
mod seal;
mod sums;
mod unpacking;
mod words;

pub use error::UnpackError;
pub use packing::{pack, packed_head};
pub use unpacking::unpack;

// The bytes of a bar, of an end, and of a word.
const BAR: usize = 48;

const SEAL: usize = 48;

const WORD: usize = 8;

#[cfg(test)]
mod tests;
