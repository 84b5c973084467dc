//! No look-ahead, from files to bytes: what the files and tables of a command hold later than a session
//! changes no byte of a table up to it. And the same files give the same bytes. The functions do nothing: the
//! contract of each is a law.
#![tactic(auto)]

mod laws;

pub use laws::{
    later_data_change_no_byte, own_days_in_any_order, same_files_same_bytes, same_input_same_bytes,
};
