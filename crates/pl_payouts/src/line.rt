//! The line of a payout, put together before it is written.

ghost use Rattle.std.specs.Prelude.{◌≡◌, ◌+◌, ◌≤◌, ◌++◌, ◌∷◌, [], length};
ghost use Rattle.std.specs.Fmt.{signed_decimal};
ghost use Rattle.arrayvec.specs.ArrayVec.{array_vec_len};
ghost use Rattle.pl_payouts.specs.Payouts.{IsPayout};
ghost use Rattle.pl_payouts.specs.Texts.{payout_line, reason_of};

use crate::Payout;
use crate::ratio::{Skip, effective_of};
use arrayvec::ArrayVec;
use itoa::Buffer;
use pl_spec::RawAdjust;

// The greatest length of a line: five numbers of at most 20 bytes, commas, and a reason.
const LONGEST: usize = 128;

// A line that is put together before it is written.
pub(crate) type Line = ArrayVec<u8, LONGEST>;

// The line of a payout.
pub(crate) fn line_of(payout: &Payout, ratio: &Result<RawAdjust, Skip>) -> Line
    requires { IsPayout payout.now }
    ensures { result.items ≡ payout_line payout.now ratio.now }
{
    let mut line = Line::new();
    put_number(&mut line, payout.number as i64);
    put_number(&mut line, payout.sid as i64);
    put_number(&mut line, effective_of(payout));
    match ratio {
        Ok(row) => {
            put_number(&mut line, row.num);
            put_number(&mut line, row.den);
        }
        Err(skip) => {
            put(&mut line, b",,");
            put(&mut line, reason_of(*skip));
        }
    }
    put(&mut line, b"\n");
    line
}

// Puts a number and a comma at the end of the line, for which there is room.
fn put_number(line: &mut Line, n: i64)
    requires { array_vec_len line.old + 21 ≤ 128 }
    ensures text { line.new.items ≡ line.old.items ++ (signed_decimal n ++ 44 ∷ []) }
    ensures within { array_vec_len line.new ≤ array_vec_len line.old + 21 }
{
    let mut buffer = Buffer::new();
    put(line, buffer.format(n).as_bytes());
    put(line, b",");
}

// Puts bytes at the end of the line, for which there is room.
fn put(line: &mut Line, piece: &[u8])
    requires { array_vec_len line.old + length piece.now ≤ 128 }
    ensures text { line.new.items ≡ line.old.items ++ piece.now }
    ensures len { array_vec_len line.new ≡ array_vec_len line.old + length piece.now }
{
    line.try_extend_from_slice(piece).unwrap();
}

fn reason_of(skip: Skip) -> &'static [u8]
    ensures text { result.now ≡ reason_of skip }
    ensures short { length result.now ≤ 9 }
{
    match skip {
        Skip::NoSession => b"NoSession",
        Skip::NoClose => b"NoClose",
        Skip::NotBelow => b"NotBelow",
        Skip::TooFine => b"TooFine",
    }
}
