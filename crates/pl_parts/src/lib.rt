//! The parts of the cut of a world as texts, each in the form of the file of that part: what a piece of a
//! range reads, and no more.
//!
//! A text has the rows in the order in which the world keeps them: sessions by day, assets by sid, bars by
//! asset and session, labels as in their file, numbers by name, asset and day, adjustments by asset in the
//! order in which they act. Their definitions are in `specs/Texts.antt`.
#![tactic(auto)]

mod assets;
mod bars;
mod gathering;
mod labels;
mod numbers;
mod parts;
mod put;
mod sessions;
mod span;
mod tables;

pub use assets::assets_text;
pub use bars::bars_text;
pub use labels::labels_text;
pub use numbers::numbers_text;
pub use parts::Parts;
pub use sessions::sessions_text;
pub use span::Span;
pub use tables::{ratios_text, revisions_text};
