//! How a pipeline is run over a range of sessions: how far back each term is computed, how long its values
//! are kept, and in which slot. And the text of that plan.
#![tactic(auto)]

mod columns;
mod cones;
mod holds;
pub mod laws;
mod names;
mod pipeline;
mod planning;
mod plans;
mod reach;
mod rows;
mod slots;
mod steady;
mod text;
pub mod text_laws;
mod uses;

pub use columns::has_column;
pub use cones::{ConeTerm, cone_at};
pub use pipeline::{count, node_at};
pub use planning::plan;
pub use plans::{Plan, PlanError};
pub use reach::reach_at;
pub use steady::steady_terms;
pub use text::plan_text;
pub use uses::back_from;
