//! The fields of a line.
ghost use Rattle.std.specs.Prelude.{◌≡◌, ◌≤◌, ◌+◌, ◌++◌, length};
ghost use Rattle.pl_spec.specs.Rounding.{IsCell};
ghost use Rattle.pl_spec.specs.Limits.{most_label_bytes};
ghost use Rattle.pl_spec.specs.Dates.{IsDay};
ghost use Rattle.pl_spec.specs.Lines.{day_field, eight_bytes, label_text, quote, sid_field};
ghost use Rattle.pl_values.specs.Families.{IsCode};
ghost use Rattle.pl_table.specs.Fields.{cell_field, date_part, end_part, field_part, sid_part};
ghost use Rattle.pl_table.specs.declared.writing.Writing.TheVariants as Writing;

use crate::line::Line;
use crate::writing::Writing;
use itoa::Buffer;
use pl_assets::Labels;
use pl_fixed::{MISSING, write_day, write_decimal};
use pl_spec::Format;

/// Puts a day, counted from 1970-01-01, as the first field of a line: its date `YYYY-MM-DD`, or four bytes.
pub fn put_date(line: &mut Line, format: Format, day: i32)
    requires date { IsDay day }
    requires room { length line.old + 10 ≤ 8_448 }
    ensures text { line.new ≡ line.old ++ date_part format (day_field format day) }
    ensures within { length line.new ≤ length line.old + 10 }
{
    let mut date = [0u8; 10];
    // a date fills the ten places that the fixed form has for it
    match format {
        Format::Csv | Format::Fixed => {
            write_day(day, &mut date);
            line.put(&date);
        }
        Format::Cells => line.put(&day.cast_unsigned().to_le_bytes()),
    }
}

/// Puts a sid after the date: after a comma, set right in a column of 10 bytes after a space, or four bytes.
pub fn put_sid(line: &mut Line, format: Format, sid: u32)
    requires { length line.old + 11 ≤ 8_448 }
    ensures text { line.new ≡ line.old ++ sid_part format (sid_field format sid) }
    ensures within { length line.new ≤ length line.old + 11 }
{
    let mut buffer = Buffer::new();
    match format {
        Format::Csv => {
            line.put(b",");
            line.put(buffer.format(sid).as_bytes());
        }
        Format::Fixed => {
            let text = buffer.format(sid).as_bytes();
            line.put(b" ");
            line.put_spaces(10usize.saturating_sub(text.len()));
            line.put(text);
        }
        Format::Cells => line.put(&sid.to_le_bytes()),
    }
}

/// Puts what ends a line: a line end after a text, nothing after bytes.
pub fn put_end(line: &mut Line, format: Format)
    requires { length line.old + 1 ≤ 8_448 }
    ensures { line.new ≡ line.old ++ end_part format }
{
    if format != Format::Cells {
        line.put(b"\n");
    }
}

// Puts the text of a further field.
fn put_text(line: &mut Line, format: Format, text: &[u8])
    requires short { length text.now ≤ 130 }
    requires room { length line.old + 131 ≤ 8_448 }
    ensures text { line.new ≡ line.old ++ field_part format text.now }
    ensures within { length line.new ≤ length line.old + 131 }
{
    match format {
        Format::Csv => line.put(b","),
        Format::Fixed => {
            line.put(b" ");
            line.put_spaces(20usize.saturating_sub(text.len()));
        }
        Format::Cells => {}
    }
    line.put(text);
}

// Puts a cell as eight bytes.
fn put_bytes(line: &mut Line, cell: i64)
    requires room { length line.old + 131 ≤ 8_448 }
    ensures text { line.new ≡ line.old ++ eight_bytes cell }
    ensures within { length line.new ≤ length line.old + 131 }
{
    line.put(&cell.cast_unsigned().to_le_bytes());
}

/// Puts the field of a cell after the others: in csv a comma, and a number with six decimals, `true` or
/// `false`, a bin's whole number or a label's text, quoted where it has to be; nothing where it is missing.
/// In the fixed form it is set right in a column of 20 bytes, after a space. As bytes it is a cell or a bin in
/// eight of them, a truth value in one, a label's text in 64 with zeros after it.
pub fn put_cell(line: &mut Line, format: Format, writing: Writing, cell: i64, labels: &Labels)
    requires cell { IsCell cell }
    requires code { writing ≡ Writing.Label → IsCode labels.now.texts cell }
    requires room { length line.old + 131 ≤ 8_448 }
    ensures text { line.new ≡ line.old ++ field_part format
        (cell_field format labels.now.texts writing cell) }
    ensures within { length line.new ≤ length line.old + 131 }
{
    match writing {
        Writing::Cell => put_number(line, format, labels, cell),
        Writing::Truth => put_truth(line, format, labels, cell),
        Writing::Whole => put_whole(line, format, labels, cell),
        Writing::Label => put_label(line, format, labels, cell),
    }
}

fn put_number(line: &mut Line, format: Format, labels: &Labels, cell: i64)
    requires cell { IsCell cell }
    requires room { length line.old + 131 ≤ 8_448 }
    ensures text { line.new ≡ line.old ++ field_part format
        (cell_field format labels.now.texts Writing.Cell cell) }
    ensures within { length line.new ≤ length line.old + 131 }
{
    match format {
        Format::Csv => line.put_decimal(cell),
        Format::Fixed => {
            let mut text = [0u8; 32];
            let len = write_decimal(cell, &mut text);
            put_text(line, format, &text[..len]);
        }
        Format::Cells => put_bytes(line, cell),
    }
}

fn put_truth(line: &mut Line, format: Format, labels: &Labels, cell: i64)
    requires room { length line.old + 131 ≤ 8_448 }
    ensures text { line.new ≡ line.old ++ field_part format
        (cell_field format labels.now.texts Writing.Truth cell) }
    ensures within { length line.new ≤ length line.old + 131 }
{
    if format == Format::Cells {
        line.put(&[u8::from(cell == 1)]);
    } else if cell == MISSING {
        put_text(line, format, b"");
    } else if cell == 1 {
        put_text(line, format, b"true");
    } else {
        put_text(line, format, b"false");
    }
}

fn put_whole(line: &mut Line, format: Format, labels: &Labels, cell: i64)
    requires room { length line.old + 131 ≤ 8_448 }
    ensures text { line.new ≡ line.old ++ field_part format
        (cell_field format labels.now.texts Writing.Whole cell) }
    ensures within { length line.new ≤ length line.old + 131 }
{
    if format == Format::Cells {
        put_bytes(line, cell);
    } else if cell == MISSING {
        put_text(line, format, b"");
    } else {
        let mut buffer = Buffer::new();
        put_text(line, format, buffer.format(cell.unsigned_abs()).as_bytes());
    }
}

fn put_label(line: &mut Line, format: Format, labels: &Labels, code: i64)
    requires code { IsCode labels.now.texts code }
    requires room { length line.old + 131 ≤ 8_448 }
    ensures text { line.new ≡ line.old ++ field_part format
        (cell_field format labels.now.texts Writing.Label code) }
    ensures within { length line.new ≤ length line.old + 131 }
{
    // there are few labels, so that codes are numbers of 32 bits
    let _rows = labels.len();
    if code == MISSING {
        put_label_text(line, format, b"", b"");
    } else {
        let code = code.unsigned_abs() as u32;
        put_label_text(line, format, labels.text(code), labels.csv_text(code));
    }
}

// Puts the text of a label, of which the one for csv is given, too.
fn put_label_text(line: &mut Line, format: Format, text: &[u8], quoted: &[u8])
    requires short { length text.now ≤ most_label_bytes }
    requires quoted { quoted.now ≡ quote text.now }
    requires room { length line.old + 131 ≤ 8_448 }
    ensures text { line.new ≡ line.old ++ field_part format (label_text format text.now) }
    ensures within { length line.new ≤ length line.old + 131 }
{
    match format {
        Format::Csv => put_text(line, format, quoted),
        Format::Fixed => put_text(line, format, text),
        Format::Cells => {
            line.put(text);
            line.put_zeros(64usize.saturating_sub(text.len()));
        }
    }
}
