//! The value of a term over the values of the terms that it mentions: for each family of kinds one call over
//! cells, and the laws by which what it gives is the cell of the definitions. A cell is a number in
//! millionths, a flag (1 or 0), the number of a numbered classifier, the code of a label's text, or
//! `MISSING`. The laws hold for every checked pipeline, in any world and for any list of assets; they speak
//! of cells alone, and neither of buffers nor of an order in which terms are computed.
#![tactic(auto)]

mod family;
mod keeping;
mod labels;
pub mod laws;
mod moving;
mod node;
mod points;
mod sections;
mod sids;
mod windows;

pub use family::{empty_value, family_of};
pub use keeping::{is_one, keep_values, truth_of};
pub use labels::{label_test_value, label_test_values, label_value};
pub use moving::keeps_values;
pub use node::{group_of, input_at, inputs_of, kind_of, mask_of, window_of};
pub use pl_terms::Family;
pub use points::point_value;
pub use sections::section_values;
pub use sids::sids_value;
pub use windows::window_value;
