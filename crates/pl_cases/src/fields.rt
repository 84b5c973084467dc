//! The fields of a row.

use anyhow::Result;
use pl_fixed::{MISSING, is_cell, write_decimal};
use std::alloc::Global;

/// A cell, which is 0 or 1 where it is that of a filter.
#[derive(Clone, Copy)]
pub(crate) struct Field {
    pub(crate) cell: i64,
    pub(crate) is_truth: bool,
}

/// What comes after the field of a cell and the comma before it; none where another field is there. A number
/// may be written with its digits after the point, as a whole number, or as the label of that code.
pub(crate) fn behind_field<'a>(
    alloc: Global,
    labels: &[String],
    field: Field,
    rest: &'a str,
) -> Result<Option<&'a str>> {
    let Some(rest) = rest.strip_prefix(',') else {
        return Ok(None);
    };
    if field.is_truth {
        return Ok(behind(rest, if field.cell == 1 { "true" } else { "false" }));
    }
    if field.cell == MISSING {
        return Ok(behind(rest, ""));
    }
    let number = number_of(alloc, field.cell)?;
    let whole = format!(in alloc; "{}", field.cell)?;
    let label = match usize::try_from(field.cell) {
        Ok(code) => labels.get(code),
        Err(_) => None,
    };
    let with_label = label.and_then(|label| behind(rest, label));
    Ok(
        behind(rest, &number)
            .or(behind(rest, &whole))
            .or(with_label),
    )
}

// What stands after a whole field.
fn behind<'a>(rest: &'a str, field: &str) -> Option<&'a str> {
    let further = rest.strip_prefix(field)?;
    if further.starts_with(',') || further.starts_with('\n') {
        Some(further)
    } else {
        None
    }
}

fn number_of(alloc: Global, cell: i64) -> Result<String> {
    let mut bytes = [0u8; 32];
    if !is_cell(cell) {
        return Ok(String::new(alloc));
    }
    let len = write_decimal(cell, &mut bytes);
    Ok(String::from_utf8_lossy(alloc, &bytes[..len])?)
}
