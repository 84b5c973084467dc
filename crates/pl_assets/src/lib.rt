//! The labels of the assets, as their sectors, each from a day on; and the assets themselves, which are those
//! of `pl_lifetimes`.
#![tactic(auto)]

mod labels;
pub mod laws;

pub use labels::{LabelAt, Labels, LabelsError, Texts};
pub use pl_lifetimes::{AssetRow, Assets, AssetsError, MOST_ASSETS};

/// How many rows of labels there may be. The limit is this project's own.
pub const MOST_LABELS: usize = 200_000;

/// How many bytes a label may have.
pub const LONGEST_LABEL: usize = 64;
