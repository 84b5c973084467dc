//! Fields, put after one another.

ghost use Rattle.std.specs.Prelude.{◌≡◌, ◌++◌, true, OnOk, decimal};
ghost use Rattle.std.specs.Fmt.{signed_decimal};
ghost use Rattle.pl_spec.specs.Dates.{IsDay, date_text};
ghost use Rattle.pl_spec.specs.Decimals.{cell_text};
ghost use Rattle.pl_spec.specs.Rounding.{IsCell};
ghost use Rattle.pl_parts.specs.Texts.{behind_comma, day_text, has_date, line_end};

use itoa::Buffer;
use pl_fixed::{write_day, write_decimal};
use std::alloc::AllocError;

pub(crate) fn put(out: &mut Vec<u8>, bytes: &[u8]) -> Result<(), AllocError>
    ensures { OnOk result (out.new.items ≡ out.old.items ++ bytes.now) }
{
    out.extend_from_slice(bytes)?;
    Ok(())
}

pub(crate) fn put_further(out: &mut Vec<u8>, bytes: &[u8]) -> Result<(), AllocError>
    ensures { OnOk result (out.new.items ≡ out.old.items ++ behind_comma bytes.now) }
{
    out.push(b',')?;
    put(out, bytes)
}

pub(crate) fn put_end(out: &mut Vec<u8>) -> Result<(), AllocError>
    ensures { OnOk result (out.new.items ≡ out.old.items ++ line_end) }
{
    out.push(b'\n')?;
    Ok(())
}

pub(crate) fn put_number(out: &mut Vec<u8>, number: u64) -> Result<(), AllocError>
    ensures { OnOk result (out.new.items ≡ out.old.items ++ decimal number) }
{
    let mut buffer = Buffer::new();
    put(out, buffer.format(number).as_bytes())
}

pub(crate) fn put_further_number(out: &mut Vec<u8>, number: u64) -> Result<(), AllocError>
    ensures { OnOk result (out.new.items ≡ out.old.items ++ behind_comma (decimal number)) }
{
    let mut buffer = Buffer::new();
    put_further(out, buffer.format(number).as_bytes())
}

pub(crate) fn put_further_signed(out: &mut Vec<u8>, number: i64) -> Result<(), AllocError>
    ensures { OnOk result (out.new.items ≡ out.old.items ++ behind_comma (signed_decimal number)) }
{
    let mut buffer = Buffer::new();
    put_further(out, buffer.format(number).as_bytes())
}

pub(crate) fn put_further_day(out: &mut Vec<u8>, day: i32) -> Result<(), AllocError>
    ensures { OnOk result (out.new.items ≡ out.old.items ++ behind_comma (day_text day)) }
{
    out.push(b',')?;
    put_day(out, day)
}

#[tactic(auto, unfolding(crate::specs::Texts::day_text))]
pub(crate) fn put_day(out: &mut Vec<u8>, day: i32) -> Result<(), AllocError>
    ensures { OnOk result (out.new.items ≡ out.old.items ++ day_text day) }
{
    if has_date(day) {
        put_date(out, day)
    } else {
        let mut buffer = Buffer::new();
        put(out, buffer.format(day).as_bytes())
    }
}

fn has_date(day: i32) -> bool
    ensures { result ≡ has_date day }
{
    FIRST_DAY <= day && day <= LAST_DAY
}

// 1900-01-01 and 2199-12-31.
const FIRST_DAY: i32 = -25_567;

const LAST_DAY: i32 = 84_005;

fn put_date(out: &mut Vec<u8>, day: i32) -> Result<(), AllocError>
    requires { has_date day ≡ true }
    ensures { OnOk result (out.new.items ≡ out.old.items ++ date_text day) }
{
    let mut date = [0u8; 10];
    write_day(day, &mut date);
    put(out, &date)
}

pub(crate) fn put_further_cell(out: &mut Vec<u8>, cell: i64) -> Result<(), AllocError>
    requires { IsCell cell }
    ensures { OnOk result (out.new.items ≡ out.old.items ++ behind_comma (cell_text cell)) }
{
    let mut text = [0u8; 32];
    let len = write_decimal(cell, &mut text);
    put_further(out, &text[..len])
}
