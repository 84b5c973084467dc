//! The outside of a run: where files, rows of adjustments and written bytes come from and go to.
//!
//! `Shelf`, `AdjustKeeper` and `Sink` are what a run is given. Each says by ghost members what it holds or
//! took, as far as that is known, and counts its faults. A call fails only where the count rose in it: as the
//! call ends, the count is greater than at its start, or it is the greatest number of 64 bits, at which it
//! stays. Of a sound object it is known what it holds or took, and it counts no fault but those that its
//! trait names, so that a caller of sound objects knows each answer.
//!
//! `read_file`, `write_bytes` and `write_pieces` are the loops over them. The parts in memory are for tests
//! and for runs that write nothing. These rules are this project's own; Zipline has none of them.
#![tactic(auto)]

mod call_log;
mod faults;
mod files;
mod keeper;
mod logs;
mod memory_keeper;
mod memory_shelf;
mod memory_sink;
mod parts;
mod reading;
mod shelf;
mod sink;
mod taking;
mod writing;

pub use faults::{Failed, Memory};
pub use keeper::{AdjustKeeper, KeepError, NoKeeper, Table};
pub use logs::{GivenLog, LoadedLog, TakenLog};
pub use memory_keeper::MemoryKeeper;
pub use memory_shelf::MemoryShelf;
pub use memory_sink::MemorySink;
pub use parts::write_pieces;
pub use pl_spec::RawAdjust;
pub use reading::{ReadError, read_file};
pub use shelf::Shelf;
pub use sink::{NullSink, Sink};
pub use taking::{Taker, read_pieces};
pub use writing::write_bytes;
