//! The cases of a file, line by line.

use crate::case::Case;
use crate::lines::{add_line, words_of};
use crate::repeat::add_lines;
use anyhow::{Context, Result, bail};
use std::alloc::Global;

/// What was read: what holds for all cases, once the first of them began, and the case that is not ended.
#[derive(Drop)]
pub(crate) struct Reader {
    common: Option<Case>,
    case: Case,
}

impl Reader {
    pub(crate) fn new(alloc: Global) -> Reader {
        Reader {
            common: None,
            case: Case::new(alloc),
        }
    }

    /// The case that is not ended.
    pub(crate) fn case(&self) -> &Case {
        &self.case
    }

    /// Reads a line, and gives the case that ends with it.
    pub(crate) fn take(&mut self, alloc: Global, line: &str) -> Result<Option<Case>> {
        match line.split_once(' ') {
            Some(("case", name)) => self.begin(alloc, name),
            _ => {
                state(alloc, &mut self.case, line)?;
                Ok(None)
            }
        }
    }

    // Begins a case. What was read before the first one holds for all.
    fn begin(&mut self, alloc: Global, name: &str) -> Result<Option<Case>> {
        match &self.common {
            Some(common) => {
                let next = common.copy(alloc, name)?;
                Ok(Some(std::mem::replace(&mut self.case, next)))
            }
            None => {
                let next = self.case.copy(alloc, name)?;
                self.common = Some(std::mem::replace(&mut self.case, next));
                Ok(None)
            }
        }
    }
}

// Adds to a case what a line states.
fn state(alloc: Global, case: &mut Case, line: &str) -> Result<()> {
    if let Some(written) = line.strip_prefix('|') {
        return add_to_text(case, written);
    }
    match line.split_once(' ') {
        Some(("repeat", written)) => {
            let text = case.last_text().context("no text")?;
            add_lines(alloc, &mut text.bytes, written)
        }
        Some(("$", words)) => Ok(case.add_command(words_of(alloc, words)?)?),
        Some(("for", choice)) => Ok(case.add_choice(String::from_str(alloc, choice)?)?),
        Some((first, rest)) => state_number(alloc, case, line, first, rest),
        None => state_word(alloc, case, line),
    }
}

fn add_to_text(case: &mut Case, written: &str) -> Result<()> {
    let text = case.last_text().context("no text")?;
    add_line(&mut text.bytes, written)
}

fn state_number(alloc: Global, case: &mut Case, line: &str, first: &str, rest: &str) -> Result<()> {
    match first {
        "file" | "failing" | "out" => case.begin_text(alloc, line)?,
        "chunks" => case.set_chunks(words_of(alloc, rest)?),
        "status" => case.set_status(rest.parse::<u8>()?),
        "cells" => case.set_cells(rest == "yes"),
        "#" => (),
        _ => bail!("no line of a case: {line}"),
    }
    Ok(())
}

fn state_word(alloc: Global, case: &mut Case, line: &str) -> Result<()> {
    match line {
        "splits" | "mergers" | "dividends" | "loaded" | "out" | "err" => case.begin_text(
            alloc, line,
        )?,
        "chunks" => case.set_chunks(Vec::new(alloc)),
        "$" => case.add_command(Vec::new(alloc))?,
        "" | "#" => (),
        _ => bail!("no line of a case: {line}"),
    }
    Ok(())
}
