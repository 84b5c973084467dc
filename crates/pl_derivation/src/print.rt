//! From lines to their text.

ghost use Rattle.std.specs.Prelude.{◌≡◌, ◌++◌, ◌∷◌, [], IfOk, IfSome, map, flat_map, option_to_list, decimal, codes};
ghost use Rattle.pl_spec.specs.Dates.{IsDay, date_text};
ghost use Rattle.pl_spec.specs.Names.{column_name};
ghost use Rattle.pl_derivation.specs.Texts.{number_text, body_of, text_of, IsWritable};
ghost use Rattle.pl_derivation.specs.Listed.{line_of};
ghost use Rattle.pl_derivation.specs.Lines.Line.{SeenLine};
ghost use Rattle.pl_derivation.specs.declared.line.Line.TheVariants.{Value, SeenValue};

use crate::line::{CellList, Derivation, Line, SeenValueLine, ValueLine};
use itoa::Buffer;
use pl_fixed::{Memory, write_day};
use pl_spec::Column;
use std::alloc::{AllocError, Global};

const MISSING: i64 = i64::MIN;

// The name of a column.
fn name_of(column: Column) -> &'static [u8]
    ensures { result.now ≡ column_name column }
{
    match column {
        Column::OpenPrice => b"open",
        Column::High => b"high",
        Column::Low => b"low",
        Column::Close => b"close",
        Column::Volume => b"volume",
    }
}

fn put_field(bytes: &mut Vec<u8>, field: &[u8]) -> Result<(), AllocError>
    ensures { IfOk result (λ _. bytes.new.items ≡ bytes.old.items ++ ((32 ∷ []) ++ field.now)) }
{
    bytes.extend_from_slice(b" ")?;
    bytes.extend_from_slice(field)
}

fn put_whole(bytes: &mut Vec<u8>, number: u32) -> Result<(), AllocError>
    ensures { IfOk result (λ _. bytes.new.items ≡ bytes.old.items ++ ((32 ∷ []) ++ decimal number)) }
{
    let mut buffer = Buffer::new();
    put_field(bytes, buffer.format(number).as_bytes())
}

fn put_day(bytes: &mut Vec<u8>, day: i32) -> Result<(), AllocError>
    requires { IsDay day }
    ensures { IfOk result (λ _. bytes.new.items ≡ bytes.old.items ++ ((32 ∷ []) ++ date_text day)) }
{
    let mut date = [0u8; 10];
    write_day(day, &mut date);
    put_field(bytes, &date)
}

fn put_number(bytes: &mut Vec<u8>, number: i64) -> Result<(), AllocError>
    ensures { IfOk result (λ _. bytes.new.items ≡ bytes.old.items ++ ((32 ∷ []) ++ number_text number)) }
{
    if number == MISSING {
        return put_field(bytes, b"-");
    }
    let mut buffer = Buffer::new();
    put_field(bytes, buffer.format(number).as_bytes())
}

fn put_numbers(bytes: &mut Vec<u8>, numbers: &[i64]) -> Result<(), AllocError>
    ensures { IfOk result (λ _. bytes.new.items
        ≡ bytes.old.items ++ flat_map (λ x. (32 ∷ []) ++ number_text x) numbers.now) }
{
    for number in numbers {
        put_number(bytes, *number)?;
    }
    Ok(())
}

fn put_seen(
    bytes: &mut Vec<u8>,
    column: Column,
    sid: u32,
    bar_day: i32,
    day: i32,
    cells: &CellList,
) -> Result<(), AllocError>
    requires bar_day { IsDay bar_day }
    requires day { IsDay day }
    ensures { IfOk result (λ _. bytes.new.items
        ≡ bytes.old.items ++ (body_of (SeenLine column sid bar_day day cells.now) ++ 10 ∷ [])) }
{
    bytes.extend_from_slice(b"seen")?;
    put_field(bytes, name_of(column))?;
    put_whole(bytes, sid)?;
    put_day(bytes, bar_day)?;
    put_day(bytes, day)?;
    put_numbers(bytes, cells.as_slice())?;
    bytes.extend_from_slice(b"\n")
}

// The day of a record, where there is one.
fn put_known(bytes: &mut Vec<u8>, known: Option<i32>) -> Result<(), AllocError>
    requires { IfSome known IsDay }
    ensures { IfOk result (λ _. bytes.new.items
        ≡ bytes.old.items ++ flat_map (λ d. (32 ∷ []) ++ date_text d) (option_to_list known)) }
{
    match known {
        None => Ok(()),
        Some(day) => put_day(bytes, day),
    }
}

fn put_value(bytes: &mut Vec<u8>, line: &ValueLine) -> Result<(), AllocError>
    requires day { IsDay line.now.day }
    requires known { IfSome line.now.known IsDay }
    ensures { IfOk result (λ _. bytes.new.items
        ≡ bytes.old.items ++ (body_of (line_of (Value line.now)) ++ 10 ∷ [])) }
{
    bytes.extend_from_slice(b"value")?;
    put_whole(bytes, line.term)?;
    put_whole(bytes, line.sid)?;
    put_day(bytes, line.day)?;
    put_number(bytes, line.value)?;
    put_known(bytes, line.known)?;
    bytes.extend_from_slice(b"\n")
}

fn put_seen_value(bytes: &mut Vec<u8>, seen: &SeenValueLine) -> Result<(), AllocError>
    requires own_day { IsDay seen.now.own_day }
    requires day { IsDay seen.now.day }
    ensures { IfOk result (λ _. bytes.new.items
        ≡ bytes.old.items ++ (body_of (line_of (SeenValue seen.now)) ++ 10 ∷ [])) }
{
    bytes.extend_from_slice(b"seen-value")?;
    put_whole(bytes, seen.term)?;
    put_whole(bytes, seen.sid)?;
    put_day(bytes, seen.own_day)?;
    put_day(bytes, seen.day)?;
    put_number(bytes, seen.value)?;
    bytes.extend_from_slice(b"\n")
}

fn put_line(bytes: &mut Vec<u8>, line: &Line) -> Result<(), AllocError>
    requires { IsWritable (line_of line.now) }
    ensures { IfOk result (λ _. bytes.new.items
        ≡ bytes.old.items ++ (body_of (line_of line.now) ++ 10 ∷ [])) }
{
    match line {
        Line::Seen {
            column,
            sid,
            bar_day,
            day,
            cells,
        } => put_seen(bytes, *column, *sid, *bar_day, *day, cells),
        Line::Value(value) => put_value(bytes, value),
        Line::SeenValue(value) => put_seen_value(bytes, value),
    }
}

/// The text of the lines, each ended by LF, as docs/DERIVATIONS.md has them; it reads back as them. The only
/// error is want of memory.
pub fn print_lines(alloc: Global, derivation: &Derivation) -> Result<Vec<u8>, Memory>
    ensures { IfOk result (λ bytes. bytes.items ≡ text_of derivation.now) }
{
    let mut bytes = Vec::new(alloc);
    let count = derivation.len();
    for i in 0..count {
        put_line(&mut bytes, derivation.line(i))?;
    }
    Ok(bytes)
}
