//! A line of the table.
ghost use Rattle.std.specs.Prelude.{◌≡◌, ◌≤◌, ◌+◌, ◌++◌, [], ◌∷◌, length, replicate, IfOk};
ghost use Rattle.pl_spec.specs.Rounding.{IsCell};
ghost use Rattle.pl_spec.specs.Decimals.{cell_text};

use crate::place::{place_byte, place_bytes, place_cell};
use std::alloc::{AllocError, Global};
use std::marker::Model;

/// The greatest length of a line: a date, a sid, and 64 fields of at most 131 bytes with what comes before
/// them, a label of 64 quotes in quotes, take 8,406 bytes.
const MOST: usize = 8_448;

/// A line that is put together before it is written. Its memory is taken once, by `reserve` alone: all bytes
/// are there from then on, and the first of them count.
#[derive(Drop)]
pub struct Line {
    bytes: Vec<u8>,
    len: usize,
}

impl Model for Line {
    ghost use Rattle.std.specs.Prelude.{ℕ, List, take};
    ghost use Rattle.pl_table.specs.Places.{IsLine};

    ghost Value = { List ℕ };

    ghost view = { λ l. take l.len l.bytes.items };

    ghost invariant = { λ l. IsLine l.bytes.items l.len };
}

impl Line {
    /// An empty line with room for the longest one, 8,448 bytes. The only error is want of memory.
    pub fn reserve(alloc: Global) -> Result<Line, AllocError>
        ensures { IfOk result (λ line. line ≡ []) }
    {
        let bytes = vec![in alloc; 0u8; MOST]?;
        Ok(Line { bytes, len: 0 })
    }

    /// Begins anew: the line has no bytes.
    pub fn clear(&mut self)
        ensures { self.new ≡ [] }
    {
        self.len = 0;
    }

    /// Puts bytes at the end, for which there is room.
    pub fn put(&mut self, piece: &[u8])
        requires { length self.old + length piece.now ≤ 8_448 }
        ensures { self.new ≡ self.old ++ piece.now }
    {
        self.len = place_bytes(self.bytes.as_mut_slice(), self.len, piece);
    }

    /// Puts at most 20 spaces at the end.
    pub(crate) fn put_spaces(&mut self, count: usize)
        requires few { count ≤ 20 }
        requires room { length self.old + count ≤ 8_448 }
        ensures { self.new ≡ self.old ++ replicate count 32 }
    {
        let spaces = [b' '; 20];
        self.put(&spaces[..count]);
    }

    /// Puts at most 64 zeros at the end.
    pub(crate) fn put_zeros(&mut self, count: usize)
        requires few { count ≤ 64 }
        requires room { length self.old + count ≤ 8_448 }
        ensures { self.new ≡ self.old ++ replicate count 0 }
    {
        let zeros = [0; 64];
        self.put(&zeros[..count]);
    }

    /// Puts a comma and the decimal text of a cell, which is written where it is to stand.
    pub(crate) fn put_decimal(&mut self, cell: i64)
        requires cell { IsCell cell }
        requires room { length self.old + 33 ≤ 8_448 }
        ensures text { self.new ≡ self.old ++ 44 ∷ cell_text cell }
        ensures within { length self.new ≤ length self.old + 33 }
    {
        let bytes = self.bytes.as_mut_slice();
        let at = place_byte(bytes, self.len, b',');
        self.len = place_cell(bytes, at, cell);
    }

    /// Lends the bytes that were put so far.
    pub fn as_slice(&self) -> &[u8]
        ensures { result.now ≡ self.now }
    {
        &self.bytes[..self.len]
    }
}
