//! The table's first line.
ghost use Rattle.std.specs.Prelude.{◌≡◌, ◌≤◌, ◌<◌, ◌∷◌, ◌++◌, length, replicate, slice_get, Some, IfOk, OnOk};
ghost use Rattle.pl_pipeline.specs.Text.{header};
ghost use Rattle.pl_terms.specs.Checked.{pipeline_of};
ghost use Rattle.pl_pipeline.specs.Table.{NamedColumn};
ghost use Rattle.pl_table.specs.Fields.{column_part, field_part, word_written};

use crate::writing::{Writing, writing_of};
use pl_spec::Format;
use pl_terms::Checked;
use std::alloc::{AllocError, Global};

/// The header of the table of a pipeline, with its line end: `session`, `sid` and the names of the columns,
/// before bytes each with what its bytes are. The only error is want of memory.
pub fn make_header(alloc: Global, checked: &Checked, format: Format) -> Result<Vec<u8>, AllocError>
    ensures { IfOk result (λ text. text.items ≡ header (pipeline_of checked.now) format) }
{
    let front = match format {
        Format::Csv => b"session,sid".as_slice(),
        Format::Fixed => b"session           sid".as_slice(),
        Format::Cells => b"session:day,sid:sid".as_slice(),
    };
    let mut text = Vec::from_slice(alloc, front)?;
    for column in 0..checked.columns() {
        put_column(&mut text, format, checked, column)?;
    }
    text.push(b'\n')?;
    Ok(text)
}

// A column as a further field.
fn put_column(
    text: &mut Vec<u8>,
    format: Format,
    checked: &Checked,
    column: usize,
) -> Result<(), AllocError>
    requires { column < length checked.now.columns }
    ensures { OnOk result ((c : NamedColumn) → slice_get (pipeline_of checked.now).columns column ≡ Some c
        → text.new.items ≡ text.old.items ++ column_part format (pipeline_of checked.now).graph c) }
{
    let name = checked.column_name(column);
    match format {
        Format::Csv => put_name(text, format, name)?,
        Format::Fixed => put_name(text, format, name)?,
        Format::Cells => {
            let writing = writing_of(checked.graph(), checked.column_term(column));
            put_name(text, Format::Csv, name)?;
            text.extend_from_slice(word_of(writing))?;
        }
    }
    Ok(())
}

// What the bytes of a column are, after a colon.
fn word_of(writing: Writing) -> &'static [u8]
    ensures { result.now ≡ 58 ∷ word_written writing }
{
    match writing {
        Writing::Cell => b":number",
        Writing::Truth => b":filter",
        Writing::Whole => b":whole",
        Writing::Label => b":label",
    }
}

// A name as a further field of a text.
fn put_name(text: &mut Vec<u8>, format: Format, name: &[u8]) -> Result<(), AllocError>
    ensures { OnOk result (text.new.items ≡ text.old.items ++ field_part format name.now) }
{
    match format {
        Format::Csv => {
            text.push(b',')?;
            text.extend_from_slice(name)
        }
        Format::Cells => text.extend_from_slice(name),
        Format::Fixed => {
            text.push(b' ')?;
            put_spaces(text, 20usize.saturating_sub(name.len()))?;
            text.extend_from_slice(name)
        }
    }
}

fn put_spaces(text: &mut Vec<u8>, count: usize) -> Result<(), AllocError>
    requires { count ≤ 20 }
    ensures { OnOk result (text.new.items ≡ text.old.items ++ replicate count 32) }
{
    let spaces = [b' '; 20];
    text.extend_from_slice(&spaces[..count])
}
