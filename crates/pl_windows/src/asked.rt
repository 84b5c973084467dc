//! What windows are asked of.

use pl_fixed::Column;
use pl_world::World;

/// What windows are asked of: a world, one of its bar columns, how many sessions a window has, and the
/// sessions from which and to which they are told, both included and counted from 0.
#[derive(Clone, Copy)]
pub struct Asked<'a> {
    pub world: World<'a>,
    pub column: Column,
    pub window: usize,
    pub from: usize,
    pub to: usize,
}
