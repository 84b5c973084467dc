//! The data of a pipeline as one world, and what its values read of it.
#![tactic(auto)]

mod asof;
mod cell;
pub mod laws;
mod owned;
mod parts;
mod present;
mod world;

pub use asof::asof_world;
pub use cell::exists;
pub use owned::OwnedWorld;
pub use parts::{
    SectionRows, input_at, label_cell, number_cell, number_day, section_input, section_row,
};
pub use present::{has_numbers, present_numbers};
pub use world::World;
