//! The records of a text as long as they have few fields and no quotes: a line is a record, and its fields are
//! what is between its commas. They are the pieces of the text itself, and nothing is copied.
ghost use Rattle.std.specs.Prelude.{◌≡◌, ◌==◌, ◌+◌, ◌<◌, ◌≤◌, ◌∷◌, ◌++◌, [], drop, take, length, map, slice_index, IfSome};
ghost use Rattle.csv.specs.Reading.{records, default_config};
ghost use Rattle.pl_records.specs.Reading.{field};
ghost use Rattle.pl_records.specs.Records.{csv_records};
ghost use Rattle.pl_records.specs.Plain.{StartsRecord, Advances, is_line_end};
ghost use Rattle.pl_records.specs.PlainCuts.{IsCut, IsBegun, is_low};
ghost use Rattle.std.specs.Simd.Lanes.{chunk, mask_l};

use std::marker::Model;
use std::simd::prelude::*;

// How many fields a record has at most that is read here. They have their places from the start, so that
// none takes memory.
pub(crate) const MOST_FIELDS: usize = 8;

/// The record that was read last, and the text after it.
#[derive(Drop)]
pub(crate) struct PlainRecords<'a> {
    fields: [&'a [u8]; MOST_FIELDS],
    count: usize,
    rest: &'a [u8],
}

impl<'a> Model for PlainRecords<'a> {
    ghost use Rattle.pl_records.specs.View.{RecordsView};
    ghost use Rattle.pl_records.specs.PlainInside.{view_of, IsPlain};

    ghost Value = { RecordsView };

    ghost view = { view_of };

    ghost invariant = { IsPlain };
}

/// What a read found.
#[derive(Clone, Copy)]
pub(crate) enum Next {
    /// A record, which was read.
    Record,
    /// No record: none is left.
    End,
    /// A record that csv has to read.
    Other,
}

impl<'a> PlainRecords<'a> {
    /// All records of the text are left, and none was read.
    pub(crate) fn new(bytes: &'a [u8]) -> PlainRecords<'a>
        ensures none { result.fields ≡ [] }
        ensures all { result.left ≡ csv_records bytes.entry.now }
    {
        PlainRecords {
            fields: [bytes; MOST_FIELDS],
            count: 0,
            rest: bytes,
        }
    }

    /// Reads the next record, unless it has a quote or more fields than there are places, or begins with a byte
    /// order mark.
    pub(crate) fn next(&mut self) -> Next
        ensures { Advances self.old self.new result }
    {
        let rest = self.rest;
        if may_have_mark(rest) {
            return Next::Other;
        }
        let line = behind_line_ends(rest);
        if line.is_empty() {
            self.rest = line;
            return Next::End;
        }
        let found = split(line, &mut self.fields);
        match found {
            Some(first) => {
                self.count = first.count;
                self.rest = &line[first.end..];
                Next::Record
            }
            None => Next::Other,
        }
    }

    /// The text of the records that are left.
    pub(crate) fn rest(&self) -> &'a [u8]
        ensures { csv_records result.now ≡ self.now.left }
    {
        self.rest
    }

    /// How many fields the record has that was read last.
    pub(crate) fn field_count(&self) -> usize
        ensures { result ≡ length self.now.fields }
    {
        self.count
    }

    /// A field of the record that was read last, counted from 0.
    pub(crate) fn field(&self, i: usize) -> &[u8]
        requires { i < length self.now.fields }
        ensures { result.now ≡ field self.now.fields i }
    {
        let fields = self.fields.as_slice();
        fields[i]
    }
}

// Whether a byte order mark may stand first.
fn may_have_mark(text: &[u8]) -> bool
    ensures { result ≡ (slice_index text.now 0 == 0xEF) }
{
    !text.is_empty() && text[0] == 0xEF
}

// The text from its first record on.
fn behind_line_ends<'a>(text: &'a [u8]) -> &'a [u8]
    ensures same { records default_config result.now ≡ records default_config text.now }
    ensures starts { StartsRecord result.now }
{
    for i in 0..text.len() {
        if !is_line_end(text[i]) {
            return &text[i..];
        }
    }
    &text[text.len()..]
}

fn is_line_end(byte: u8) -> bool
    ensures { result ≡ is_line_end byte }
{
    byte == b'\r' || byte == b'\n'
}

// A record up to some place: how many fields are whole, and where the next one begins.
#[derive(Clone, Copy)]
pub(crate) struct Begun {
    count: usize,
    start: usize,
}

// A record: how many fields it has, and where it ends.
#[derive(Clone, Copy)]
pub(crate) struct Line {
    count: usize,
    end: usize,
}

// What became of the bytes of a record up to some place.
#[derive(Clone, Copy)]
pub(crate) enum Cut {
    // The record goes on.
    On(Begun),
    // The record is whole.
    End(Line),
    // It has a quote, or too many fields.
    Other,
}

// Splits the first record of the text into its fields; `None` where it has a quote, or too many of them.
fn split<'a>(text: &'a [u8], fields: &mut [&'a [u8]; MOST_FIELDS]) -> Option<Line>
    requires some { 0 < length text.now }
    requires starts { StartsRecord text.now }
    ensures few { IfSome result (λ line. line.count ≤ MOST_FIELDS) }
    ensures within { IfSome result (λ line. line.end ≤ length text.now) }
    ensures record { IfSome result (λ line. records default_config text.now
        ≡ take line.count (map (λ f. f.now) fields.new) ∷ csv_records (drop line.end text.now)) }
{
    let mut begun = Begun { count: 0, start: 0 };
    let mut at = 0;
    'parts: while text.len() - at >= 16 {
        let cut = split_part(text, begun, at, fields);
        match cut {
            Cut::On(next) => begun = next,
            Cut::End(line) => return Some(line),
            Cut::Other => return None,
        }
        at += 16;
    }
    split_rest(text, begun, at, fields)
}

// A bit for each of the sixteen bytes from a place on, which is set where the byte may end a field.
#[inline(always)]
fn marks_of(text: &[u8], at: usize) -> u64
    requires { at + 16 ≤ length text.now }
    ensures { result ≡ mask_l (map is_low (chunk at 16 text.now)) }
{
    u8x16::from_slice(&text[at..])
        .simd_le(u8x16::splat(b','))
        .to_bitmask()
}

// Goes on with a record over sixteen bytes, of which only those that may end a field are looked at.
#[inline(always)]
fn split_part<'a>(
    text: &'a [u8],
    first: Begun,
    at: usize,
    fields: &mut [&'a [u8]; MOST_FIELDS],
) -> Cut
    requires room { at + 16 ≤ length text.now }
    requires begun { IsBegun text.now (map (λ f. f.now) fields.old) at first }
    ensures { IsCut text.now (map (λ f. f.now) fields.new) (at + 16) result }
{
    let mut marks = marks_of(text, at);
    let mut begun = first;
    let mut next = at;
    'lows: while marks != 0 {
        let before = marks.trailing_zeros();
        let place = next + before as usize;
        let cut = cut_at(text, begun, place, fields);
        match cut {
            Cut::On(later) => begun = later,
            Cut::End(line) => return Cut::End(line),
            Cut::Other => return Cut::Other,
        }
        marks = (marks >> before) >> 1;
        next = place + 1;
    }
    Cut::On(begun)
}

// Goes on with a record over one byte.
#[inline(always)]
fn cut_at<'a>(text: &'a [u8], begun: Begun, i: usize, fields: &mut [&'a [u8]; MOST_FIELDS]) -> Cut
    requires inside { i < length text.now }
    requires begun { IsBegun text.now (map (λ f. f.now) fields.old) i begun }
    ensures { IsCut text.now (map (λ f. f.now) fields.new) (i + 1) result }
{
    let count = begun.count;
    match text[i] {
        b',' => {
            fields[count] = &text[begun.start..i];
            if count + 1 == MOST_FIELDS {
                return Cut::Other;
            }
            Cut::On(Begun {
                count: count + 1,
                start: i + 1,
            })
        }
        b'\n' | b'\r' => {
            fields[count] = &text[begun.start..i];
            Cut::End(Line {
                count: count + 1,
                end: i,
            })
        }
        b'"' => Cut::Other,
        _ => Cut::On(begun),
    }
}

// Goes on with a record over all bytes that are left.
fn split_rest<'a>(
    text: &'a [u8],
    first: Begun,
    at: usize,
    fields: &mut [&'a [u8]; MOST_FIELDS],
) -> Option<Line>
    requires most { at ≤ length text.now }
    requires begun { IsBegun text.now (map (λ f. f.now) fields.old) at first }
    ensures few { IfSome result (λ line. line.count ≤ MOST_FIELDS) }
    ensures within { IfSome result (λ line. line.end ≤ length text.now) }
    ensures record { IfSome result (λ line. records default_config text.now
        ≡ take line.count (map (λ f. f.now) fields.new) ∷ csv_records (drop line.end text.now)) }
{
    let mut begun = first;
    for i in at..text.len() {
        let byte = text[i];
        // Digits and letters, which are most bytes, take one comparison.
        if byte > b',' {
            continue;
        }
        let cut = cut_at(text, begun, i, fields);
        match cut {
            Cut::On(next) => begun = next,
            Cut::End(line) => return Some(line),
            Cut::Other => return None,
        }
    }
    put_field(&text[begun.start..], fields, begun.count);
    Some(Line {
        count: begun.count + 1,
        end: text.len(),
    })
}

// Puts a field into its place.
fn put_field<'a>(field: &'a [u8], fields: &mut [&'a [u8]; MOST_FIELDS], count: usize)
    requires { count < MOST_FIELDS }
    ensures { take (count + 1) (map (λ f. f.now) fields.new)
        ≡ take count (map (λ f. f.now) fields.old) ++ field.now ∷ [] }
{
    fields[count] = field;
}
