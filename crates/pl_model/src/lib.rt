//! The data of a pipeline as one world, which is that of `pl_world`, and the value of a term in it, computed
//! plainly, one cell at a time.
#![tactic(auto)]

mod bars;
mod evaluation;

pub use evaluation::cell_now;
pub use pl_world::{OwnedWorld, World, asof_world, exists, laws};
