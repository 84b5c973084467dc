//! A bar as six words.

ghost use Rattle.std.specs.Prelude.{◌≡◌, ◌+◌, ◌≤◌, length, take, drop};
ghost use Rattle.pl_bars.specs.Bars.{key_of};
ghost use Rattle.pl_packed.specs.Fit.{IsSmall};
ghost use Rattle.pl_packed.specs.Packed.{words_of, words_bytes};

use crate::WORD;
use crate::words::eight_at;
use pl_spec::BarRow;

// A number that rises by column, and then by session.
pub(crate) fn key(bar: &BarRow) -> u64
    ensures { result ≡ key_of bar.now }
{
    ((bar.col as u64) << 32) + bar.session as u64
}

pub(crate) fn words_of(bar: &BarRow) -> [u64; 6]
    requires { IsSmall bar.now }
    ensures { result ≡ words_of bar.now }
{
    let [open, high, low, close, volume] = bar.cells;
    [
        key(bar),
        open.cast_unsigned(),
        high.cast_unsigned(),
        low.cast_unsigned(),
        close.cast_unsigned(),
        volume.cast_unsigned(),
    ]
}

// The bar whose bytes stand at a place.
pub(crate) fn bar_at(bytes: &[u8], at: usize) -> BarRow
    requires { at + 48 ≤ length bytes.now }
    ensures bytes { words_bytes (words_of result) ≡ take 48 (drop at bytes.now) }
    ensures small { IsSmall result }
{
    let key = eight_at(bytes, at);
    BarRow {
        col: (key >> 32) as u32,
        session: (key % (1 << 32)) as u32,
        cells: [
            eight_at(bytes, at + WORD).cast_signed(),
            eight_at(bytes, at + 2 * WORD).cast_signed(),
            eight_at(bytes, at + 3 * WORD).cast_signed(),
            eight_at(bytes, at + 4 * WORD).cast_signed(),
            eight_at(bytes, at + 5 * WORD).cast_signed(),
        ],
    }
}
