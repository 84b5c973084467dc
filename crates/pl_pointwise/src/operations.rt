//! The operations that no other crate has, on the values of one place.
ghost use Rattle.std.specs.Prelude.{◌≡◌, ◌&&◌, not, pos, unsigned_abs, if◌then◌else◌};
ghost use Rattle.std.specs.Int.{int_max, int_min};
ghost use Rattle.pl_spec.specs.Rounding.{IsCell, MISSING, is_missing, is_present};
ghost use Rattle.pl_spec.specs.Cells.{truth, is_true};
ghost use Rattle.pl_pipeline.specs.Pointwise.{is_number};

use pl_fixed::MISSING;

// A truth value as a filter has it.
fn truth(holds: bool) -> i64
    ensures { result ≡ truth holds }
{
    if holds { 1 } else { 0 }
}

// Whether a filter is false.
pub(crate) fn not(x: i64) -> i64
    ensures { result ≡ truth (not (is_true x)) }
{
    truth(x != 1)
}

// The size of a number, without its sign.
pub(crate) fn size(x: i64) -> i64
    requires { IsCell x }
    ensures { result ≡ (if is_missing x then MISSING else pos (unsigned_abs x)) }
{
    if x == MISSING { MISSING } else { x.abs() }
}

// The nearest number from low to high, where x is there.
pub(crate) fn clip(low: i64, high: i64, x: i64) -> i64
    ensures { result ≡ (if is_missing x then MISSING else int_max low (int_min high x)) }
{
    if x == MISSING {
        MISSING
    } else {
        low.max(high.min(x))
    }
}

// x, and y in its place where it is missing.
pub(crate) fn fill(x: i64, y: i64) -> i64
    ensures { result ≡ (if is_missing x then y else x) }
{
    if x == MISSING { y } else { x }
}

// x where a filter is true.
pub(crate) fn kept(x: i64, y: i64) -> i64
    ensures { result ≡ (if is_true y then x else MISSING) }
{
    if y == 1 { x } else { MISSING }
}

// Whether there is no value.
pub(crate) fn missing(x: i64) -> i64
    ensures { result ≡ truth (is_missing x) }
{
    truth(x == MISSING)
}

// Whether there is a value.
pub(crate) fn present(x: i64) -> i64
    ensures { result ≡ truth (is_present x) }
{
    truth(x != MISSING)
}

// Whether a classifier's number is there and is this one, which is in millionths.
pub(crate) fn is_number(number: i64, x: i64) -> i64
    ensures { result ≡ truth (is_present x && is_number number x) }
{
    truth(x != MISSING && same_number(number, x))
}

// Whether a classifier's number is there and is another than this one, which is in millionths.
pub(crate) fn is_other_number(number: i64, x: i64) -> i64
    ensures { result ≡ truth (is_present x && not (is_number number x)) }
{
    truth(x != MISSING && !same_number(number, x))
}

// Whether a whole number is this one, which is in millionths.
fn same_number(number: i64, x: i64) -> bool
    ensures { result ≡ is_number number x }
{
    x as i128 * 1_000_000 == number as i128
}
