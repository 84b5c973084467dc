//! Lines with a counter.

use crate::lines::add_line;
use anyhow::{Context, Result, bail};
use pl_fixed::write_day;
use std::alloc::Global;

/// Adds the lines of `COUNT from FIRST step STEP|LINE`.
pub(crate) fn add_lines(alloc: Global, bytes: &mut Vec<u8>, written: &str) -> Result<()> {
    let (head, line) = written.split_once('|').context("no line to repeat")?;
    let (count, first, step) = numbers_of(head)?;
    let mut number = first;
    for _ in 0..count {
        add_line(bytes, &filled(alloc, line, number)?)?;
        number = number.checked_add(step).context("too large a number")?;
    }
    Ok(())
}

fn numbers_of(head: &str) -> Result<(u32, i64, i64)> {
    let (count, head) = head.split_once(" from ").context("no first number")?;
    let (first, step) = head.split_once(" step ").context("no step")?;
    Ok((
        count.parse::<u32>()?,
        first.parse::<i64>()?,
        step.parse::<i64>()?,
    ))
}

// The line with what stands in braces replaced.
fn filled(alloc: Global, line: &str, number: i64) -> Result<String> {
    let mut text = String::new(alloc);
    for (place, piece) in line.split('{').enumerate() {
        if place == 0 {
            text.push_str(piece)?;
        } else {
            let (named, rest) = piece.split_once('}').context("no end of braces")?;
            add_named(alloc, &mut text, named, number)?;
            text.push_str(rest)?;
        }
    }
    Ok(text)
}

// Adds `n` as the number, `d` as its date, each with a number added that stands after it.
fn add_named(alloc: Global, text: &mut String, named: &str, number: i64) -> Result<()> {
    let (is_date, added) = match named.strip_prefix('n') {
        Some(added) => (false, added),
        None => (
            true,
            named.strip_prefix('d').context("no name of a number")?,
        ),
    };
    let added = if added.is_empty() {
        0
    } else {
        added.parse::<i64>()?
    };
    let number = number.checked_add(added).context("too large a number")?;
    if is_date {
        text.push_str(&date_of(alloc, number)?)?;
    } else {
        text.push_str(&format!(in alloc; "{number}")?)?;
    }
    Ok(())
}

fn date_of(alloc: Global, day: i64) -> Result<String> {
    if day < -25_567 || 84_005 < day {
        bail!("no day");
    }
    let mut date = [0u8; 10];
    write_day(day as i32, &mut date);
    Ok(String::from_utf8_lossy(alloc, &date)?)
}
