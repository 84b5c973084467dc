//! Sids, read from their digits.

ghost use Rattle.std.specs.Prelude.{◌≡◌, ◌<◌, ◌^◌, ℕ, IfSome};
ghost use Rattle.std.specs.Fmt.{decimal};
ghost use Rattle.pl_spec.specs.Decimals.{sid_in};

use crate::digits::{is_numeral, value_up_to};

// One more than the greatest sid.
const SID_END: u64 = 1 << 32;

/// The sid that the bytes write: a number from 0 to 4294967295 without sign and without leading zeros; `None`
/// for any other bytes.
pub fn read_sid(b: &[u8]) -> Option<u32>
    ensures exact { result ≡ sid_in b.now }
    ensures found { IfSome result (λ sid. b.now ≡ decimal sid) }
    ensures only { (sid : ℕ) → sid < 2 ^ 32 → b.now ≡ decimal sid → result ≡ Some sid }
{
    sid_of(b)
}

fn sid_of(b: &[u8]) -> Option<u32>
    ensures found { IfSome result (λ sid. (sid < 2 ^ 32) × (b.now ≡ decimal sid)) }
    ensures only { (sid : ℕ) → sid < 2 ^ 32 → b.now ≡ decimal sid → result ≡ Some sid }
{
    if !is_numeral(b) {
        return None;
    }
    if b[0] == b'0' && b.len() > 1 {
        return None;
    }
    let value = value_up_to(SID_END, b);
    if value < SID_END {
        Some(value as u32)
    } else {
        None
    }
}
