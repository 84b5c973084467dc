//! The adapters to the outside: files, standard output and standard error, and what the program does around
//! its run.
//!
//! What a file holds and what a stream shows, no clause can say: that step is trusted. What was given and
//! taken is in their logs.
#![tactic(auto)]

mod command_line;
mod ends;
mod faults;
mod file_shelf;
mod stream;

pub use command_line::{StartError, words};
pub use ends::{ended, flushed};
pub use file_shelf::FileShelf;
pub use stream::Stream;
