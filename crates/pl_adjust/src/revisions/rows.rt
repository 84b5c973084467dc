//! The rows of revisions, among which a second one of a cell is found.

ghost use Rattle.std.specs.Prelude.{◌≡◌, ◌+◌, ◌^◌, ◌<◌, ◌++◌, ◌∷◌, [], length, pos, ◌+ℤ◌, IfOk};
ghost use Rattle.std.specs.List.{list_any};
ghost use Rattle.pl_spec.specs.World.{column_number};
ghost use Rattle.pl_adjust.specs.RevisionKeys.{HasDays, key_of};
ghost use Rattle.pl_adjust.specs.Revisions.{is_same};

use crate::revisions::Revision;
use pl_fixed::Column;
use std::alloc::{AllocError, Global};
use std::collections::HashSet;
use std::marker::Model;

// Revisions in their order, and the keys by which one is found among them.
#[derive(Drop)]
pub(crate) struct Rows {
    list: Vec<Revision>,
    keys: HashSet<u128>,
}

impl Model for Rows {
    ghost use Rattle.std.specs.Prelude.{List};
    ghost use Rattle.pl_adjust.specs.declared.revisions.Revision.{Revision};
    ghost use Rattle.pl_adjust.specs.RevisionKeys.{AreFound};

    ghost Value = { List Revision };

    ghost view = { λ r. r.list.items };

    ghost invariant = { λ r. AreFound r.keys r.list.items };
}

impl Rows {
    // No revisions.
    pub(crate) fn new(alloc: Global) -> Rows
        ensures { result ≡ [] }
    {
        Rows {
            list: Vec::new(alloc),
            keys: HashSet::new(alloc),
        }
    }

    pub(crate) fn len(&self) -> usize
        ensures { result ≡ length self.now }
    {
        self.list.len()
    }

    // Whether one of them has the sid, the bar's day, the column and the known day.
    pub(crate) fn has(&self, row: &Revision) -> bool
        ensures { result ≡ list_any (is_same row.now) self.now }
    {
        self.keys.contains(&key_of(row))
    }

    // These and one more after them.
    pub(crate) fn and(mut self, row: Revision) -> Result<Rows, AllocError>
        ensures { IfOk result (λ r. r ≡ self ++ row ∷ []) }
    {
        self.keys.insert(key_of(&row))?;
        self.list.push(row)?;
        Ok(self)
    }

    pub(crate) fn into_list(self) -> Vec<Revision>
        ensures { result.items ≡ self }
    {
        self.list
    }
}

const BASE: u128 = 1 << 32;

// A number of the sid, the bar's day, the column and the known day.
fn key_of(row: &Revision) -> u128
    ensures key { result ≡ key_of row.now }
    ensures days { HasDays row.now }
{
    let bar = row.sid as u128 * BASE + days_on(row.bar_day) as u128;
    let cell = bar * BASE + number_of(row.column) as u128;
    cell * BASE + days_on(row.known) as u128
}

// Days are counted from the first one that there is.
fn days_on(day: i32) -> u32
    ensures { pos result ≡ day +ℤ pos (2 ^ 31) }
{
    day.cast_unsigned().wrapping_add(1 << 31)
}

fn number_of(column: Column) -> u32
    ensures value { result ≡ column_number column }
    ensures few { result < 5 }
{
    match column {
        Column::OpenPrice => 0,
        Column::High => 1,
        Column::Low => 2,
        Column::Close => 3,
        Column::Volume => 4,
    }
}
