//! Reading the text of lines.
ghost use Rattle.std.specs.Prelude.{◌≡◌, ◌<◌, ◌+◌, ◌∷◌, ◌++◌, ◌==◌, All, Ok, IfOk, IfErr, IfSome, length, option_map, drop, position, []};
ghost use Rattle.pl_spec.specs.Rounding.{IsCell};
ghost use Rattle.pl_derivation.specs.Texts.{pieces, column_in, known_in, numbers_in, seen_line, seen_value_line, value_line, line_in, lines_in};
ghost use Rattle.pl_derivation.specs.Listed.{line_of};
ghost use Rattle.pl_derivation.specs.Reading.{behind, bar_line, IsLinesFault};

use crate::line::{CellList, Derivation, Line, MOST_LINES, SeenValueLine, ValueLine};
use crate::number::read_number;
use pl_fixed::{read_day, read_sid};
use pl_spec::Column;
use std::alloc::{AllocError, Global};

/// Why a text is no derivation. `line` is counted from 1.
#[derive(Clone, Copy, Debug, PartialEq, Eq)]
pub enum LinesError {
    /// The first line that is none of a derivation's.
    BadLine { line: u32 },
    /// The first line after 100,000.
    TooMany { line: u32 },
    /// Memory ran out.
    Memory,
}

fn place_of(mark: u8, text: &[u8]) -> Option<usize>
    ensures place { result ≡ position (λ b. b == mark) text.now }
    ensures within { IfSome result (λ at. at < length text.now) }
{
    text.iter().position(|b| *b == mark)
}

fn text_after(text: &[u8], at: usize) -> &[u8]
    requires { at < length text.now }
    ensures rest { result.now ≡ drop (at + 1) text.now }
    ensures shorter { length result.now < length text.now }
{
    &text[at + 1..]
}

// What stands before the first of these bytes, and what is after it.
fn cut(mark: u8, text: &[u8]) -> (&[u8], Option<&[u8]>)
    ensures pieces { pieces mark text.now ≡ result.0.now ∷ behind mark (option_map (λ r. r.now) result.1) }
    ensures shorter { IfSome result.1 (λ r. length r.now < length text.now) }
{
    match place_of(mark, text) {
        Some(at) => (&text[..at], Some(text_after(text, at))),
        None => (text, None),
    }
}

fn read_column(text: &[u8]) -> Option<Column>
    ensures { result ≡ column_in text.now }
{
    if text == b"open".as_slice() {
        Some(Column::OpenPrice)
    } else if text == b"high".as_slice() {
        Some(Column::High)
    } else if text == b"low".as_slice() {
        Some(Column::Low)
    } else if text == b"close".as_slice() {
        Some(Column::Close)
    } else if text == b"volume".as_slice() {
        Some(Column::Volume)
    } else {
        None
    }
}

// The numbers that stand with one space between two of them.
fn read_cells(alloc: Global, text: &[u8]) -> Result<Option<CellList>, AllocError>
    ensures { IfOk result (λ cells. cells ≡ numbers_in (pieces 32 text.now)) }
{
    let mut cells = Vec::new(alloc);
    let mut left = Some(text);
    while let Some(text) = left {
        let (field, rest) = cut(b' ', text);
        let Some(cell) = read_number(field) else {
            return Ok(None);
        };
        cells.push(cell)?;
        left = rest;
    }
    Ok(Some(CellList::new(cells)))
}

// The day of a record, where the text has a further field.
#[tactic(auto, using(crate::proofs::Cuts::known_more))]
fn read_known(text: Option<&[u8]>) -> Option<Option<i32>>
    ensures { result ≡ known_in (behind 32 (option_map (λ r. r.now) text.entry)) }
{
    let Some(text) = text else {
        return Some(None);
    };
    let (day, None) = cut(b' ', text) else {
        return None;
    };
    Some(Some(read_day(day)?))
}

// What follows the word `value`.
fn read_value(text: &[u8]) -> Option<Line>
    ensures { option_map line_of result ≡ value_line (pieces 32 text.now) }
{
    let (term, rest) = cut(b' ', text);
    let (sid, rest) = cut(b' ', rest?);
    let (day, rest) = cut(b' ', rest?);
    let (value, rest) = cut(b' ', rest?);
    value_in(term, sid, day, value, rest)
}

// What four fields say of a value, and what follows them.
fn value_in(term: &[u8], sid: &[u8], day: &[u8], value: &[u8], known: Option<&[u8]>) -> Option<Line>
    ensures { option_map line_of result ≡ value_line (term.now ∷ sid.now ∷ day.now ∷ value.now
        ∷ behind 32 (option_map (λ r. r.now) known.entry)) }
{
    Some(Line::Value(ValueLine {
        term: read_sid(term)?,
        sid: read_sid(sid)?,
        day: read_day(day)?,
        value: read_number(value)?,
        known: read_known(known)?,
    }))
}

// What follows the word `seen-value`.
fn read_seen_value(text: &[u8]) -> Option<Line>
    ensures { option_map line_of result ≡ seen_value_line (pieces 32 text.now) }
{
    let (term, rest) = cut(b' ', text);
    let (sid, rest) = cut(b' ', rest?);
    let (own_day, rest) = cut(b' ', rest?);
    let (day, rest) = cut(b' ', rest?);
    seen_value_in(term, sid, own_day, day, rest?)
}

// What four fields say of a value as it is seen, and the text of its number after them.
#[tactic(auto, using(crate::proofs::Cuts::number_more))]
fn seen_value_in(term: &[u8], sid: &[u8], own_day: &[u8], day: &[u8], text: &[u8]) -> Option<Line>
    ensures { option_map line_of result
        ≡ seen_value_line (term.now ∷ sid.now ∷ own_day.now ∷ day.now ∷ pieces 32 text.now) }
{
    let (value, None) = cut(b' ', text) else {
        return None;
    };
    Some(Line::SeenValue(SeenValueLine {
        term: read_sid(term)?,
        sid: read_sid(sid)?,
        own_day: read_day(own_day)?,
        day: read_day(day)?,
        value: read_number(value)?,
    }))
}

// What the fields before the cells say of them.
fn read_bar(column: &[u8], sid: &[u8], bar_day: &[u8], day: &[u8], cells: CellList) -> Option<Line>
    ensures { option_map line_of result ≡ bar_line column.now sid.now bar_day.now day.now cells }
{
    Some(Line::Seen {
        column: read_column(column)?,
        sid: read_sid(sid)?,
        bar_day: read_day(bar_day)?,
        day: read_day(day)?,
        cells,
    })
}

// What follows the word `seen`.
#[tactic(auto, using(crate::proofs::Cuts::seen_more, crate::proofs::Cuts::seen_none))]
fn read_seen(alloc: Global, text: &[u8]) -> Result<Option<Line>, AllocError>
    ensures { IfOk result (λ line. option_map line_of line ≡ seen_line (pieces 32 text.now)) }
{
    let (column, Some(rest)) = cut(b' ', text) else {
        return Ok(None);
    };
    let (sid, Some(rest)) = cut(b' ', rest) else {
        return Ok(None);
    };
    let (bar_day, Some(rest)) = cut(b' ', rest) else {
        return Ok(None);
    };
    let (day, Some(rest)) = cut(b' ', rest) else {
        return Ok(None);
    };
    match read_cells(alloc, rest)? {
        None => Ok(None),
        Some(cells) => Ok(read_bar(column, sid, bar_day, day, cells)),
    }
}

// The line that the bytes are, without its line feed.
#[tactic(auto, using(crate::proofs::Cuts::lone_word), unfolding(crate::specs::Texts::line_in))]
fn read_line(alloc: Global, text: &[u8]) -> Result<Option<Line>, AllocError>
    ensures { IfOk result (λ line. option_map line_of line ≡ line_in text.now) }
{
    let (word, Some(rest)) = cut(b' ', text) else {
        return Ok(None);
    };
    if word == b"seen".as_slice() {
        read_seen(alloc, rest)
    } else if word == b"value".as_slice() {
        Ok(read_value(rest))
    } else if word == b"seen-value".as_slice() {
        Ok(read_seen_value(rest))
    } else {
        Ok(None)
    }
}

fn add_line(lines: &mut Vec<Line>, line: Line) -> Result<(), AllocError>
    ensures { IfOk result (λ _. lines.new.items ≡ lines.old.items ++ line ∷ []) }
{
    lines.push(line)?;
    Ok(())
}

/// Reads the text of a derivation. The error is its first fault, or want of memory. An empty text is a bad
/// line, and so is a last line without its LF. Whether the lines are right is not judged here.
pub fn read_lines(alloc: Global, bytes: &[u8]) -> Result<Derivation, LinesError>
    ensures lines { IfOk result (λ lines. lines_in bytes.now ≡ Ok lines) }
    ensures fault { IfErr result (λ e. IsLinesFault bytes.now e) }
{
    if bytes.is_empty() {
        return Err(LinesError::BadLine { line: 1 });
    }
    let mut lines = Vec::new(alloc);
    let mut left = bytes;
    while !left.is_empty() {
        let number = lines.len() as u32 + 1;
        match place_of(b'\n', left) {
            None => return Err(LinesError::BadLine { line: number }),
            Some(end) => match read_line(alloc, &left[..end]) {
                Err(_) => return Err(LinesError::Memory),
                Ok(None) => return Err(LinesError::BadLine { line: number }),
                Ok(Some(line)) => {
                    if lines.len() == MOST_LINES {
                        return Err(LinesError::TooMany { line: number });
                    }
                    match add_line(&mut lines, line) {
                        Err(_) => return Err(LinesError::Memory),
                        Ok(()) => left = text_after(left, end),
                    }
                }
            },
        }
    }
    Ok(Derivation::of(lines))
}
