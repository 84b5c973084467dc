//! The row of a term.
ghost use Rattle.std.specs.Prelude.{◌≡◌, ◌≤◌, length};
ghost use Rattle.pl_daily.specs.TermDays.{IsRowInEveryWorld, IsKept, IsTermDay, Moment, assets_at, node_at};

use crate::families::{given_row, number_row, section};
use crate::leaves::keep_row;
use crate::term_day::TermDay;
use crate::windows::window_row;
use pl_cross::Cross;
use pl_values::{Family, empty_value, family_of, keep_values, kind_of, mask_of};

// The row of a term, for the assets that are kept.
fn kind_row(
    term_day: &TermDay<'_>,
    cross: &mut Cross,
    first: &mut [i64],
    second: &mut [i64],
    third: &mut [i64],
    keep: &[i64],
    out: &mut [i64],
)
    requires term_day { (v : Moment) × IsTermDay term_day.now v }
    requires cross { assets_at term_day.now ≤ cross.old }
    requires first { (node_at term_day.now).window ≤ length first.old }
    requires second { (node_at term_day.now).window ≤ length second.old }
    requires third { (node_at term_day.now).window ≤ length third.old }
    requires keep { IsKept term_day.now keep.now }
    requires long { length out.old ≡ assets_at term_day.now }
    ensures out { IsRowInEveryWorld term_day.now out.new }
    ensures cross { cross.new ≡ cross.old }
    ensures first { length first.new ≡ length first.old }
    ensures second { length second.new ≡ length second.old }
    ensures third { length third.new ≡ length third.old }
{
    let empty = empty_value(term_day.checked.graph(), term_day.term);
    let family = family_of(kind_of(term_day.node));
    match family {
        Family::Window => window_row(term_day, first, second, third, empty, keep, out),
        Family::Section => section(term_day, cross, keep, out),
        _ => {
            given_row(term_day, family, out);
            keep_values(keep, empty, out);
        }
    }
}

/// The row of a term on its day: its cells as arrays hold them, one for each asset by ascending sid, in every
/// world in which the day is a session whose bars and terms the rings and rows hold. `keep` is for who is
/// kept, three slices are for windows, and `cross` is for cross-sections. It takes no memory.
pub fn fill_row(
    term_day: &TermDay<'_>,
    cross: &mut Cross,
    first: &mut [i64],
    second: &mut [i64],
    third: &mut [i64],
    keep: &mut [i64],
    out: &mut [i64],
)
    requires term_day { (v : Moment) × IsTermDay term_day.now v }
    requires cross { assets_at term_day.now ≤ cross.old }
    requires first { (node_at term_day.now).window ≤ length first.old }
    requires second { (node_at term_day.now).window ≤ length second.old }
    requires third { (node_at term_day.now).window ≤ length third.old }
    requires keep { length keep.old ≡ assets_at term_day.now }
    requires long { length out.old ≡ assets_at term_day.now }
    ensures out { IsRowInEveryWorld term_day.now out.new }
    ensures keep { length keep.new ≡ length keep.old }
    ensures cross { cross.new ≡ cross.old }
    ensures first { length first.new ≡ length first.old }
    ensures second { length second.new ≡ length second.old }
    ensures third { length third.new ≡ length third.old }
{
    let mask = number_row(term_day, mask_of(term_day.node));
    keep_row(term_day.assets, term_day.day, mask, keep);
    kind_row(term_day, cross, first, second, third, keep, out);
}
