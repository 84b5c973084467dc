//! The numbers of a second file behind those of a first.
ghost use Rattle.std.specs.Prelude.{◌≡◌, ◌+◌, ◌++◌, ◌<◌, ◌≤◌, ◌^◌, false, bytes_eq, drop, length, map, All, AllPairs, IfOk, OnOk};
ghost use Rattle.std.specs.List.{list_any, position_or_len};
ghost use Rattle.pl_spec.specs.Limits.{most_numbers};
ghost use Rattle.pl_records.specs.Reading.{Answers};
ghost use Rattle.pl_records.specs.Records.{csv_records};
ghost use Rattle.pl_numbers.specs.Beside.{begins_among, both, is_among, joined, numbers_beside};
ghost use Rattle.pl_numbers.specs.NumberFaults.{fault_of};
ghost use Rattle.pl_numbers.specs.NumberPlaces.{IsTable, shown_rows, table_in};
ghost use Rattle.pl_numbers.specs.BesidePlaces.{AreNamed, moved};

use crate::MOST_NUMBERS;
use crate::error::NumbersError;
use crate::rows::{NumberRows, Place};
use crate::table::read_table;
use pl_assets::Texts;
use pl_lifetimes::Assets;
use pl_records::Records;
use std::alloc::{AllocError, Global};

// The rows of a second file behind those of a first, where there is room and no name has rows in both.
#[tactic(auto, unfolding(crate::specs::Beside::numbers_beside))]
pub(crate) fn with_file(
    alloc: Global,
    first: NumberRows,
    bytes: &[u8],
    assets: &Assets,
) -> Result<NumberRows, NumbersError>
    requires table { IsTable first }
    requires named { AreNamed first }
    requires cols { All (λ r. r.col < length assets.now) (shown_rows first) }
    ensures exact { Answers table_in fault_of result
        (numbers_beside (table_in first) assets.now (csv_records bytes.now)) }
    ensures table { IfOk result IsTable }
    ensures cols { IfOk result (λ t. All (λ r. r.col < length assets.now) (shown_rows t)) }
{
    let other = read_table(alloc, bytes, assets)?;
    judge(alloc, &first, &other, bytes)?;
    let rows = first.join(&other)?;
    Ok(rows)
}

// Whether the tables may stand behind each other. The fault is that of a record of the second file.
#[tactic(auto, unfolding(crate::specs::Beside::joined))]
fn judge(
    alloc: Global,
    first: &NumberRows,
    other: &NumberRows,
    bytes: &[u8],
) -> Result<(), NumbersError>
    requires first { IsTable first.now }
    requires other { IsTable other.now }
    requires few { length (drop 1 (csv_records bytes.now)) ≤ most_numbers }
    ensures exact { Answers (λ u. both (table_in first.now) (table_in other.now)) fault_of result
        (joined (table_in first.now) (csv_records bytes.now) (table_in other.now)) }
    ensures room { OnOk result
        (length first.now.places.items + length other.now.places.items ≤ most_numbers) }
    ensures apart { OnOk result
        (list_any (is_among first.now.names) other.now.names ≡ false) }
{
    let room = MOST_NUMBERS - first.places.len();
    if room < other.places.len() {
        let line = room as u32 + 2;
        return Err(NumbersError::TooMany { line });
    }
    if has_some(&first.names, &other.names) {
        let line = line_among(alloc, bytes, &first.names)?;
        return Err(NumbersError::Duplicate { line });
    }
    Ok(())
}

// Whether one of the texts is among the names.
fn has_some(names: &Texts, texts: &Texts) -> bool
    ensures { result ≡ list_any (is_among names.now) texts.now }
{
    for i in 0..texts.len() {
        if is_among(names, texts.text(i)) {
            return true;
        }
    }
    false
}

// The number of the first record after the header that begins with one of the names.
fn line_among(alloc: Global, bytes: &[u8], names: &Texts) -> Result<u32, AllocError>
    requires { length (drop 1 (csv_records bytes.now)) ≤ most_numbers }
    ensures { IfOk result (λ line. line
        ≡ 2 + position_or_len (begins_among names.now) (drop 1 (csv_records bytes.now))) }
{
    let mut records = Records::new(alloc, bytes);
    records.next()?;
    line_from(&mut records, names)
}

// The same of the records behind the header.
fn line_from(records: &mut Records, names: &Texts) -> Result<u32, AllocError>
    requires { length records.old.left ≤ most_numbers }
    ensures { IfOk result (λ line. line
        ≡ 2 + position_or_len (begins_among names.now) records.old.left) }
{
    let mut line = 2;
    'rows: while records.next()? {
        if begins_among(records, names) {
            return Ok(line);
        }
        line += 1;
    }
    Ok(line)
}

fn begins_among(row: &Records, names: &Texts) -> bool
    ensures { result ≡ begins_among names.now row.now.fields }
{
    row.field_count() != 0 && is_among(names, row.field(0))
}

fn is_among(names: &Texts, text: &[u8]) -> bool
    ensures { result ≡ is_among names.now text.now }
{
    names.number_of(text).is_some()
}

impl NumberRows {
    // The rows of another table behind these.
    fn join(self, other: &NumberRows) -> Result<NumberRows, AllocError>
        requires first { IsTable self }
        requires other { IsTable other.now }
        requires few_names { length self.names + length other.now.names ≤ most_numbers }
        requires room { length self.places.items + length other.now.places.items ≤ most_numbers }
        requires apart { list_any (is_among self.names) other.now.names ≡ false }
        ensures both { IfOk result (λ t. table_in t ≡ both (table_in self) (table_in other.now)) }
        ensures table { IfOk result IsTable }
    {
        let (mut names, mut places) = self.into_parts();
        let count = names.len() as u32;
        put_names(&mut names, &other.names)?;
        put_places(&mut places, &other.places, count)?;
        Ok(NumberRows { names, places })
    }
}

// Puts names behind others, each of which stands once among all.
pub(crate) fn put_names(into: &mut Texts, names: &Texts) -> Result<(), AllocError>
    requires once { AllPairs (λ x y. bytes_eq x y ≡ false) names.now }
    requires apart { list_any (is_among into.old) names.now ≡ false }
    ensures { OnOk result (into.new ≡ into.old ++ names.now) }
{
    for number in 0..names.len() {
        into.insert(names.text(number))?;
    }
    Ok(())
}

// Puts rows behind others, under names that stand so many names further on.
fn put_places(into: &mut Vec<Place>, places: &[Place], count: u32) -> Result<(), AllocError>
    requires { All (λ p. count + p.name < 2 ^ 32) places.now }
    ensures { OnOk result (into.new.items ≡ into.old.items ++ map (moved count) places.now) }
{
    for i in 0..places.len() {
        let place = places[i];
        into.push(Place {
            name: count + place.name,
            col: place.col,
            known: place.known,
            value: place.value,
        })?;
    }
    Ok(())
}
