//! Whole numbers as lines have them.

ghost use Rattle.std.specs.Prelude.{◌≡◌, ◌≢◌, ◌≤◌, ◌<◌, ◌∷◌, ℕ, ℤ, Some, IfSome, length, min, get_or};
ghost use Rattle.std.specs.List.{list_all};
ghost use Rattle.std.specs.Char.{is_ascii_digit};
ghost use Rattle.std.specs.Str.Parse.{AllDigits, digits_value};
ghost use Rattle.std.specs.Fmt.{decimal};
ghost use Rattle.pl_spec.specs.Rounding.{LIMIT, IsCell};
ghost use Rattle.pl_fixed.specs.Reading.{is_numeral};
ghost use Rattle.pl_derivation.specs.Texts.{number_text, number_of_text};

use pl_fixed::MISSING;

// One more than the greatest number.
const NUMBER_END: u64 = 100_000_000_000_000_001;

fn are_digits(text: &[u8]) -> bool
    ensures { result ≡ list_all is_ascii_digit text.now }
{
    text.iter().all(|c| c.is_ascii_digit())
}

fn is_numeral(text: &[u8]) -> bool
    ensures { result ≡ is_numeral text.now }
{
    !text.is_empty() && are_digits(text)
}

// The number that the digits write, or `NUMBER_END` where it is greater.
fn value_of(digits: &[u8]) -> u64
    requires { AllDigits 10 digits.now }
    ensures { result ≡ min NUMBER_END (digits_value 10 digits.now) }
{
    let mut value = 0u64;
    for digit in digits {
        value = (value * 10 + u64::from(*digit - b'0')).min(NUMBER_END);
    }
    value
}

// The number without sign and without zeros in front that the bytes write.
fn read_whole(text: &[u8]) -> Option<u64>
    ensures found { IfSome result (λ n. (n ≤ LIMIT) × (text.now ≡ decimal n)) }
    ensures only { (n : ℕ) → n ≤ LIMIT → text.now ≡ decimal n → result ≡ Some n }
{
    if !is_numeral(text) {
        return None;
    }
    if text[0] == b'0' && text.len() > 1 {
        return None;
    }
    let value = value_of(text);
    if value < NUMBER_END {
        Some(value)
    } else {
        None
    }
}

// What a minus and the digits say; a minus alone says that the number is missing.
fn negative_of(digits: &[u8]) -> Option<i64>
    ensures found { IfSome result (λ x. IsCell x × (45 ∷ digits.now ≡ number_text x)) }
    ensures only { (x : ℤ) → IsCell x → 45 ∷ digits.now ≡ number_text x → result ≡ Some x }
{
    if digits.is_empty() {
        return Some(MISSING);
    }
    match read_whole(digits) {
        None => None,
        Some(size) => {
            if size == 0 {
                return None;
            }
            Some(-(size as i64))
        }
    }
}

fn positive_of(text: &[u8]) -> Option<i64>
    requires { get_or text.now 0 0 ≢ 45 }
    ensures found { IfSome result (λ x. IsCell x × (text.now ≡ number_text x)) }
    ensures only { (x : ℤ) → IsCell x → text.now ≡ number_text x → result ≡ Some x }
{
    let size = read_whole(text)?;
    Some(size as i64)
}

fn signed_of(text: &[u8]) -> Option<i64>
    ensures found { IfSome result (λ x. IsCell x × (text.now ≡ number_text x)) }
    ensures only { (x : ℤ) → IsCell x → text.now ≡ number_text x → result ≡ Some x }
{
    if text.is_empty() {
        return None;
    }
    if text[0] == b'-' {
        negative_of(&text[1..])
    } else {
        positive_of(text)
    }
}

pub(crate) fn read_number(text: &[u8]) -> Option<i64>
    ensures exact { result ≡ number_of_text text.now }
    ensures cell { IfSome result IsCell }
{
    signed_of(text)
}
