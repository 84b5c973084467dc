//! The row of a term by the family of its kind.
ghost use Rattle.std.specs.Prelude.{◌≡◌, ◌≤◌, ◌<◌, true, false, length, slice_get, option_map, IfSome};
ghost use Rattle.pl_terms.specs.Nodes.{number_of};
ghost use Rattle.pl_cross.specs.Section.{is_section};
ghost use Rattle.pl_cross.specs.Listing.{labels_in};
ghost use Rattle.pl_values.specs.Families.{IsOf};
ghost use Rattle.pl_daily.specs.Rows.{input_row};
ghost use Rattle.pl_daily.specs.TermDays.{AreGiven, IsRowInEveryWorld, IsKept, IsTermDay, Moment, asks_keep, assets_at};
ghost use Rattle.pl_daily.specs.TermDays.{node_at, number_row};

use crate::leaves::{known_row, label_row, sids_row};
use crate::term_day::TermDay;
use pl_cross::Cross;
use pl_pointwise::pointwise;
use pl_terms::{Input, TermId};
use pl_values::{Family, group_of, input_at, kind_of, label_test_values, section_values};

/// The row of the input in a place that is a term; nothing else has one.
pub(crate) fn row_at<'t>(term_day: &TermDay<'t>, place: usize) -> &'t [i64]
    requires term_day { (v : Moment) × IsTermDay term_day.now v }
    ensures { result.now ≡ input_row term_day.now.terms.now (slice_get (node_at term_day.now).inputs place) }
{
    match input_at(term_day.node, place) {
        Some(Input::Term(term)) => &term_day.terms[term.0 as usize].row,
        _ => &[],
    }
}

/// The row of a mask or a group.
pub(crate) fn number_row<'t>(term_day: &TermDay<'t>, term: Option<TermId>) -> Option<&'t [i64]>
    requires { IfSome term (λ t. t.0 < length term_day.now.terms.now) }
    ensures { labels_in result ≡ number_row term_day.now.terms.now (option_map number_of term) }
{
    match term {
        Some(term) => Some(&term_day.terms[term.0 as usize].row),
        None => None,
    }
}

/// What the term is worth for each asset, kept or not, in a family of which a row does not depend on who is
/// kept.
pub(crate) fn given_row(term_day: &TermDay<'_>, family: Family, out: &mut [i64])
    requires term_day { (v : Moment) × IsTermDay term_day.now v }
    requires family { IsOf (node_at term_day.now).kind family }
    requires apart { asks_keep family ≡ false }
    requires long { length out.old ≡ assets_at term_day.now }
    ensures long { length out.new ≡ length out.old }
    ensures given { AreGiven term_day.now out.new }
{
    let kind = kind_of(term_day.node);
    match family {
        Family::Constant(value) => out.fill(value),
        Family::Sids => sids_row(kind, term_day.assets, out),
        Family::Label(name) => label_row(
            term_day.labels,
            term_day.checked.label_name(name),
            term_day.day,
            out,
        ),
        Family::Number(figure, name) => known_row(
            term_day.numbers,
            figure,
            term_day.checked.label_name(name),
            term_day.day,
            out,
        ),
        Family::LabelTest => {
            let codes = row_at(term_day, 0);
            label_test_values(kind, term_day.labels, codes, out);
        }
        Family::Point => {
            let first = row_at(term_day, 0);
            let second = row_at(term_day, 1);
            let third = row_at(term_day, 2);
            pointwise(kind, first, second, third, out);
        }
        // the input's cells on the first session of the period
        Family::Downsample(_) => out.copy_from_slice(term_day.start),
        Family::Window => unreachable!(),
        Family::Section => unreachable!(),
    }
}

/// The cross-section of those who are kept.
pub(crate) fn section(term_day: &TermDay<'_>, cross: &mut Cross, keep: &[i64], out: &mut [i64])
    requires term_day { (v : Moment) × IsTermDay term_day.now v }
    requires kind { is_section (node_at term_day.now).kind ≡ true }
    requires cross { assets_at term_day.now ≤ cross.old }
    requires keep { IsKept term_day.now keep.now }
    requires long { length out.old ≡ assets_at term_day.now }
    ensures out { IsRowInEveryWorld term_day.now out.new }
    ensures cross { cross.new ≡ cross.old }
{
    let values = row_at(term_day, 0);
    let groups = number_row(term_day, group_of(term_day.node));
    section_values(kind_of(term_day.node), cross, values, keep, groups, out);
}
