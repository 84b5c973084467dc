//! Texts that are read in pieces: which of the records at hand no later byte changes.

ghost use Rattle.std.specs.Prelude.{◌≡◌, IsTrue};
ghost use Rattle.std.specs.List.{list_all};
ghost use Rattle.pl_records.specs.WholeRecords.{is_unquoted, EndsRecord, IsLastLineEnd};

use memchr::{memchr, memrchr2};

/// Whether a text has no quote. Then each line of it is a record, whatever follows.
pub fn has_no_quote(text: &[u8]) -> bool
    ensures value { result ≡ list_all is_unquoted text.now }
    ensures whole { IsTrue result → EndsRecord text.now }
{
    memchr(b'"', text).is_none()
}

/// Where the last line end of a text stands; `None` where there is none.
pub fn last_line_end(text: &[u8]) -> Option<usize>
    ensures { IsLastLineEnd text.now result }
{
    memrchr2(b'\n', b'\r', text)
}
