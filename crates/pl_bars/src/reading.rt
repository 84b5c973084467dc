//! From the records of a bars file to its rows.

ghost use Rattle.std.specs.Prelude.{◌≡◌, ◌+◌, ◌*◌, ◌^◌, ◌<◌, ◌≤◌, ◌∷◌, ◌++◌, ◌==◌, [], length, nat_lt, IsTrue, OnOk, IfOk};
ghost use Rattle.pl_records.specs.Reading.{Answers, at_line, rows_behind};
ghost use Rattle.pl_records.specs.Sorted.{HasOwnKeys, sorted_by};
ghost use Rattle.pl_bars.specs.Bars.{key_of, bar_or_rule};
ghost use Rattle.pl_bars.specs.BarPoint.{IsAfter, Rise};
ghost use Rattle.pl_bars.specs.BarSet.{AreBarsIn};
ghost use Rattle.pl_bars.specs.Faults.{fault_of};
ghost use Rattle.pl_spec.specs.Limits.{most_bars};

use crate::MOST_BARS;
use crate::bar_set::BarSet;
use crate::error::BarsError;
use crate::fields::{fields_of, has_negative};
use crate::places::{col_of, session_of};
use pl_calendar::Sessions;
use pl_fixed::KnownDate;
use pl_lifetimes::Assets;
use pl_records::Records;
use pl_spec::BarRow;

// The bars by column and session. Most files have them so, and then it is told by `rise`.
pub(crate) fn ordered(rows: Vec<BarRow>, rise: bool) -> Vec<BarRow>
    requires own { HasOwnKeys key_of rows.items }
    requires rises { IsTrue rise → Rise rows.items }
    ensures { result.items ≡ sorted_by key_of rows.items }
{
    if rise { rows } else { sorted(rows) }
}

fn sorted(mut rows: Vec<BarRow>) -> Vec<BarRow>
    requires { HasOwnKeys key_of rows.items }
    ensures { result.items ≡ sorted_by key_of rows.items }
{
    sort_by_place(&mut rows);
    rows
}

fn sort_by_place(rows: &mut [BarRow])
    requires { HasOwnKeys key_of rows.old }
    ensures { rows.new ≡ sorted_by key_of rows.old }
{
    rows.sort_unstable_by_key(|row| key(row));
}

fn key(row: &BarRow) -> u64
    ensures { result ≡ key_of row.now }
{
    ((row.col as u64) << 32) + row.session as u64
}

// Puts the bars of records behind those that are there, and into their set; whether they are seen to rise.
pub(crate) fn put_rows(
    rows: &mut Vec<BarRow>,
    dates: &[KnownDate],
    seen: &mut BarSet,
    rises: bool,
    records: &mut Records,
    sessions: &Sessions,
    assets: &Assets,
) -> Result<bool, BarsError>
    requires few { length rows.old.items ≤ most_bars }
    requires seen { AreBarsIn seen.old (length assets.now) (length sessions.now) rows.old.items }
    requires rises { IsTrue rises → Rise rows.old.items }
    ensures few { IfOk result (λ _. length rows.new.items ≤ most_bars) }
    ensures seen { IfOk result (λ _.
        AreBarsIn seen.new (length assets.now) (length sessions.now) rows.new.items) }
    ensures rises { IfOk result (λ rise. IsTrue rise → Rise rows.new.items) }
    ensures exact { Answers (λ _. rows.new.items) fault_of result
        (rows_behind 2 (bar_or_rule sessions.now assets.now) rows.old.items records.old.left) }
{
    let mut rise = rises;
    'rows: while records.next()? {
        let bar = next_bar(rows, dates, seen, records, sessions, assets)?;
        rise = rise_on(rise, rows, &bar);
        rows.push(bar)?;
    }
    Ok(rise)
}

// Whether bars that rise do so with one more after them.
fn rise_on(rise: bool, before: &[BarRow], bar: &BarRow) -> bool
    ensures before { IsTrue result → IsTrue rise }
    ensures after { IsTrue result → IsAfter bar.now before.now }
{
    rise && is_after(before, bar)
}

// Whether a bar stands after the last one.
fn is_after(before: &[BarRow], bar: &BarRow) -> bool
    ensures { IsTrue result → IsAfter bar.now before.now }
{
    let count = before.len();
    count == 0 || rises(&before[count - 1], bar)
}

fn rises(a: &BarRow, b: &BarRow) -> bool
    ensures { result ≡ nat_lt (key_of a.now) (key_of b.now) }
{
    key(a) < key(b)
}

// The bar of the record that was read last, after the bars before it, which are those of the set.
#[tactic(auto, unfolding(crate::specs::Bars::bar_or_rule))]
fn next_bar(
    before: &[BarRow],
    dates: &[KnownDate],
    seen: &mut BarSet,
    row: &Records,
    sessions: &Sessions,
    assets: &Assets,
) -> Result<BarRow, BarsError>
    requires few { length before.now ≤ most_bars }
    requires seen { AreBarsIn seen.old (length assets.now) (length sessions.now) before.now }
    ensures room { OnOk result (length before.now < most_bars) }
    ensures seen { IfOk result (λ b.
        AreBarsIn seen.new (length assets.now) (length sessions.now) (before.now ++ b ∷ [])) }
    ensures exact { Answers (λ b. b) fault_of result
        (at_line (2 + length before.now) (bar_or_rule sessions.now assets.now before.now row.now.fields)) }
{
    let line = before.len() as u32 + 2;
    if before.len() >= MOST_BARS {
        return Err(BarsError::TooMany { line });
    }
    let Some(fields) = fields_of(row, before, dates) else {
        return Err(BarsError::BadField { line });
    };
    let Some(session) = session_of(before, sessions, &fields) else {
        return Err(BarsError::NotSession { line });
    };
    let Some(col) = col_of(before, assets, fields.sid) else {
        return Err(BarsError::UnknownSid { line });
    };
    if has_negative(&fields.cells) {
        return Err(BarsError::Negative { line });
    }
    if seen.contains(col, session) {
        return Err(BarsError::Duplicate { line });
    }
    seen.insert(col, session);
    Ok(BarRow {
        col: col as u32,
        session: session as u32,
        cells: fields.cells,
    })
}
