//! The records of a text as csv's reader gives them.
ghost use Rattle.std.specs.Prelude.{◌≡◌, ◌<◌, [], length, IfOk, OnErr};
ghost use Rattle.pl_records.specs.Reading.{field};
ghost use Rattle.pl_records.specs.Records.{csv_records, GivesNext};

use csv::{ByteRecord, ErrorKind, Reader, ReaderBuilder};
use std::alloc::{AllocError, Global};
use std::marker::Model;

/// The record that was read last, and those that are left.
pub(crate) struct QuotedRecords<'a> {
    reader: Reader<&'a [u8]>,
    row: ByteRecord,
    done: bool,
}

// One call lets it go, so that no reader's proof goes into csv's types.
impl<'a> Drop for QuotedRecords<'a> {
    fn drop(self) {
        let QuotedRecords {
            reader: _reader,
            row: _row,
            done: _done,
        } = self;
    }
}

impl<'a> Model for QuotedRecords<'a> {
    ghost use Rattle.pl_records.specs.View.{RecordsView};
    ghost use Rattle.pl_records.specs.QuotedInside.{view_of, IsReading};

    ghost Value = { RecordsView };

    ghost view = { view_of };

    ghost invariant = { IsReading };
}

impl<'a> QuotedRecords<'a> {
    /// All records of the text are left, and none was read.
    pub(crate) fn new(alloc: Global, bytes: &'a [u8]) -> QuotedRecords<'a>
        ensures none { result.fields ≡ [] }
        ensures all { result.left ≡ csv_records bytes.entry.now }
    {
        let reader = ReaderBuilder::new()
            .has_headers(false)
            .flexible(true)
            .from_reader(alloc, bytes);
        QuotedRecords {
            reader,
            row: ByteRecord::new(alloc),
            done: false,
        }
    }

    /// Reads the next record, if there is one. After an error none is left.
    pub(crate) fn next(&mut self) -> Result<bool, AllocError>
        ensures ok { IfOk result (λ found. GivesNext self.old self.new found) }
        ensures err { OnErr result (self.new.left ≡ []) }
    {
        if self.done {
            return Ok(false);
        }
        match self.reader.read_byte_record(&mut self.row) {
            Ok(true) => Ok(true),
            Ok(false) => {
                self.done = true;
                Ok(false)
            }
            Err(error) => {
                self.done = true;
                match error.kind() {
                    // Bytes in memory give no `Io`, but no clause of csv says so.
                    ErrorKind::OutOfMemory | ErrorKind::Io(_) => Err(AllocError),
                    // Records may have any number of fields, and any bytes.
                    ErrorKind::UnequalLengths { .. } | ErrorKind::Utf8 { .. } => unreachable!(),
                    // No record is read as a value, and none is written.
                    ErrorKind::Serialize(_) | ErrorKind::Deserialize { .. } => unreachable!(),
                }
            }
        }
    }

    /// How many fields the record has that was read last.
    pub(crate) fn field_count(&self) -> usize
        ensures { result ≡ length self.now.fields }
    {
        self.row.len()
    }

    /// A field of the record that was read last, counted from 0.
    pub(crate) fn field(&self, i: usize) -> &[u8]
        requires { i < length self.now.fields }
        ensures { result.now ≡ field self.now.fields i }
    {
        match self.row.get(i) {
            Some(field) => field,
            None => unreachable!(),
        }
    }
}
