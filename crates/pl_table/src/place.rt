//! Texts that are put at a place of a line's bytes. What stands behind them may change.
ghost use Rattle.std.specs.Prelude.{◌≡◌, ◌≤◌, ◌<◌, ◌+◌, [], ◌∷◌, length, take};
ghost use Rattle.pl_spec.specs.Rounding.{IsCell};
ghost use Rattle.pl_spec.specs.Decimals.{cell_text};
ghost use Rattle.pl_table.specs.Places.{IsPlaced};

use pl_fixed::write_decimal;

/// The longest text of a cell that is written in decimal has fewer bytes.
const MOST: usize = 32;

/// Puts a byte, and gives the place after it.
#[inline(always)]
pub(crate) fn place_byte(bytes: &mut [u8], at: usize, byte: u8) -> usize
    requires { at < length bytes.old }
    ensures { IsPlaced bytes.old bytes.new at (byte ∷ []) result }
{
    bytes[at] = byte;
    at + 1
}

/// Puts some bytes, and gives the place after them.
#[inline(always)]
pub(crate) fn place_bytes(bytes: &mut [u8], at: usize, piece: &[u8]) -> usize
    requires { at + length piece.now ≤ length bytes.old }
    ensures { IsPlaced bytes.old bytes.new at piece.now result }
{
    let end = at + piece.len();
    bytes[at..end].copy_from_slice(piece);
    end
}

/// Writes the decimal text of a cell in its place, and gives the place after it.
#[inline(always)]
pub(crate) fn place_cell(bytes: &mut [u8], at: usize, cell: i64) -> usize
    requires cell { IsCell cell }
    requires room { at + 32 ≤ length bytes.old }
    ensures text { IsPlaced bytes.old bytes.new at (cell_text cell) result }
    ensures within { result ≤ at + 32 }
{
    at + cell_in_front(&mut bytes[at..at + MOST], cell)
}

#[inline(always)]
fn cell_in_front(room: &mut [u8], cell: i64) -> usize
    requires cell { IsCell cell }
    requires long { length room.old ≡ 32 }
    ensures text { take result room.new ≡ cell_text cell }
    ensures within { result ≤ 32 }
{
    let Some(out) = room.as_mut_array() else {
        unreachable!()
    };
    write_decimal(cell, out)
}
