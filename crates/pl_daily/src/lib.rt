//! Pipelines day by day, from bounded memory: all used terms of a day, over rings of bars.
//!
//! Days are fed one after the other, and rings hold the cells of their last sessions: those of bar columns,
//! which each day's adjustments change in place, and those of terms. The row of a term on a day, a value for
//! each asset, is made of these rings. No world is lent: what is given holds in every world and on every
//! session for which rings and rows stand.
#![tactic(auto)]

mod anew;
mod bars;
mod capacities;
mod columns;
mod daily;
mod day;
mod events;
mod families;
mod fill;
mod held;
mod kept;
pub mod laws;
mod leaves;
mod reaches;
pub mod ring_laws;
mod ring_starts;
mod rings;
mod room;
mod row;
mod starts;
mod term_day;
mod terms;
mod windows;

pub use columns::BarRings;
pub use daily::{Daily, NotLater};
pub use day::{Day, DayBar, DayEvent};
pub use held::{begin_term, put_term};
pub use leaves::is_kept;
pub use ring_starts::{Capacities, begin_rings};
pub use rings::{Rings, copy_window, push_row};
pub use row::fill_row;
pub use term_day::{TermCells, TermDay};
