//! The records of a CSV file, one at a time: the form in which all data files of the project are
//! read.
//!
//! The separator is the comma. No header is set apart, records have any number of fields, nothing
//! is trimmed, and a byte order mark at the front is dropped. A blank line is no record.
#![tactic(auto)]

ghost use Rattle.std.specs.Prelude.{◌≡◌, ◌<◌, [], map, drop, length, bytes_eq, IsTrue, IsSome, IfOk, IfSome, OnErr};
ghost use lib.Pointwise.{pointwise};
ghost use Rattle.pl_records.specs.Reading.{field, has_header};
ghost use Rattle.pl_records.specs.Records.{csv_records, GivesNext};

mod fault;
mod pieces;
mod plain;
mod quoted;

pub use fault::DataFault;
pub use pieces::{has_no_quote, last_line_end};
use plain::{Next, PlainRecords};
use quoted::QuotedRecords;
use std::alloc::{AllocError, Global};
use std::marker::Model;

/// The records of a file: the one that was read last, and those that are left. From the first record
/// with a quote or with many fields on, csv reads them.
#[derive(Drop)]
pub struct Records<'a> {
    alloc: Global,
    plain: PlainRecords<'a>,
    quoted: Option<QuotedRecords<'a>>,
}

impl<'a> Model for Records<'a> {
    ghost use Rattle.pl_records.specs.View.{RecordsView};
    ghost use Rattle.pl_records.specs.RecordsInside.{view_of};

    ghost Value = { RecordsView };

    ghost view = { view_of };
}

// Has csv read from here on, and reads the next record. A function pays for the room of its locals at
// each call, and csv's reader takes 16 KiB.
#[cold]
#[inline(never)]
fn begin_quoted<'a>(
    alloc: Global,
    text: &'a [u8],
    quoted: &mut Option<QuotedRecords<'a>>,
) -> Result<bool, AllocError>
    ensures some { IsSome quoted.new }
    ensures ok { IfOk result (λ found. IfSome quoted.new (λ q.
        GivesNext (record { fields = []; left = csv_records text.entry.now }) q found)) }
    ensures err { OnErr result (IfSome quoted.new (λ q. q.left ≡ [])) }
{
    let mut reader = QuotedRecords::new(alloc, text);
    let found = reader.next();
    *quoted = Some(reader);
    found
}

impl<'a> Records<'a> {
    /// All records of the file are left, and none was read. No memory is taken yet.
    pub fn new(alloc: Global, bytes: &'a [u8]) -> Records<'a>
        ensures none { result.fields ≡ [] }
        ensures all { result.left ≡ csv_records bytes.entry.now }
    {
        Records {
            alloc,
            plain: PlainRecords::new(bytes),
            quoted: None,
        }
    }

    /// Reads the next record; `false` where none is left. The only error is want of memory, and after it none
    /// is left.
    pub fn next(&mut self) -> Result<bool, AllocError>
        ensures ok { IfOk result (λ found. GivesNext self.old self.new found) }
        ensures err { OnErr result (self.new.left ≡ []) }
    {
        if let Some(quoted) = &mut self.quoted {
            return quoted.next();
        }
        match self.plain.next() {
            Next::Record => Ok(true),
            Next::End => Ok(false),
            Next::Other => begin_quoted(self.alloc, self.plain.rest(), &mut self.quoted),
        }
    }

    /// How many fields the record has that was read last; 0 before the first one.
    pub fn field_count(&self) -> usize
        ensures { result ≡ length self.now.fields }
    {
        match &self.quoted {
            Some(quoted) => quoted.field_count(),
            None => self.plain.field_count(),
        }
    }

    /// A field of the record that was read last, counted from 0, without its quotes.
    pub fn field(&self, i: usize) -> &[u8]
        requires { i < length self.now.fields }
        ensures { result.now ≡ field self.now.fields i }
    {
        match &self.quoted {
            Some(quoted) => quoted.field(i),
            None => self.plain.field(i),
        }
    }

    /// Whether the record that was read last has exactly these fields, byte by byte and in this order.
    pub fn has_fields(&self, names: &[&[u8]]) -> bool
        ensures { result ≡ pointwise bytes_eq self.now.fields (map (λ n. n.now) names.now) }
    {
        if self.field_count() != names.len() {
            return false;
        }
        for i in 0..names.len() {
            let name: &[u8] = names[i];
            if self.field(i) != name {
                return false;
            }
        }
        true
    }

    /// Reads the first record; `true` where it is this header. A file without records has none. The only
    /// error is want of memory.
    pub fn read_header(&mut self, names: &[&[u8]]) -> Result<bool, AllocError>
        ensures header { IfOk result (λ b.
            b ≡ has_header (map (λ n. n.now) names.now) self.old.left) }
        ensures rest { IfOk result (λ b. IsTrue b → self.new.left ≡ drop 1 self.old.left) }
    {
        let found = self.next()?;
        Ok(found && self.has_fields(names))
    }
}
