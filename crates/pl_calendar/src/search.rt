//! Where a day is among the sessions.

ghost use Rattle.std.specs.Prelude.{◌≡◌, ◌<◌, length, position, IfSome};
ghost use Rattle.std.specs.Int.RustNames.{int_le};
ghost use Rattle.std.specs.Ordering.{int_eq};
ghost use Rattle.pl_calendar.specs.Days.{AreDays};

// The place of the day.
pub(crate) fn index_of(days: &[i32], day: i32) -> Option<usize>
    requires { AreDays days.now }
    ensures within { IfSome result (λ i. i < length days.now) }
    ensures exact { result ≡ position (λ d. int_eq d day) days.now }
{
    let i = first_at_or_after(days, day)?;
    if is_same(days[i], day) { Some(i) } else { None }
}

// The place of the first day that is not earlier.
pub(crate) fn first_at_or_after(days: &[i32], day: i32) -> Option<usize>
    requires { AreDays days.now }
    ensures within { IfSome result (λ i. i < length days.now) }
    ensures exact { result ≡ position (λ d. int_le day d) days.now }
{
    let i = days.partition_point(|d| *d < day);
    if i < days.len() { Some(i) } else { None }
}

// The test as a fact on numbers, where == leaves one on their bits.
fn is_same(a: i32, b: i32) -> bool
    ensures { result ≡ int_eq a b }
{
    a == b
}
