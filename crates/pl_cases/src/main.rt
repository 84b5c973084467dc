//! Runs of the program over parts in memory, as case files state them.
//!
//! Each argument names a case file, a text of lines. A line begins with what it is:
//!
//! - `#`: a remark; an empty line is one, too;
//! - `case NAME`: a case begins. What comes before the first case holds for all cases, and a case may state
//!   it anew;
//! - `file NAME`: the text after it is the file of that name;
//! - `splits`, `mergers`, `dividends`: each line of the text after it is a row of that table of `adj.db`:
//!   its id, or `+` for one more than that of the row before, its effective time in seconds or as a date, its
//!   num, its den and its sid, with spaces between them;
//! - `|`: a line of a text. In it `\r` and `\n` are those bytes, `\x20` is the byte of those two digits, and
//!   `\` at its end says that no line end follows;
//! - `repeat COUNT from FIRST step STEP|`: so many lines of a text, in which `{n}` is a number that begins at
//!   FIRST and grows by STEP, `{n+2}` is 2 more, and `{d}`, `{d-1}` are the dates of such numbers of days
//!   after 1970-01-01;
//! - `$ WORDS`: the words of a command, with a space between them and `\x20` for a space in a word. A case
//!   may have several; each of them leaves the same;
//! - `for PARTS`: the case holds once for each such line, with `{1}`, `{2}` and so on in its texts replaced
//!   by the parts of that line, which have ` ; ` between them, and in which `\r`, `\n` and `\x20` are as in
//!   texts;
//! - `chunks N..`: each command is run once with each of `--chunk N`; without numbers, once as it is;
//! - `status N`, `out`, `err`: what a run leaves: its status, which is 0 where none is stated, and the texts
//!   after `out` and `err`;
//! - `loaded`: the text after it is the tables that a run loads, in that order, a line each;
//! - `failing shelf`, `failing keeper`, `failing out`: the text after it is what is on `err` where the first
//!   call of that part fails, the second, and so on, a line for each call that a run makes. The status is
//!   then 7, 8 or 9, and `out` has a beginning of its text, nothing with 7 and 8. A failing `err` changes
//!   none of this, and after each of these runs one over the same parts leaves what the case states, after
//!   what is there;
//! - `out by lines`: each call of `out` takes a line of it, which `failing out` shows;
//! - `failing err`: a run whose `err` fails leaves the same, but for `err`;
//! - `cells yes`, `cells no`: each value of a table is the value of its cell, computed by itself; with
//!   `out by cells` the table is stated by them alone.
//!
//! A line is written for each case: `ok NAME`, or `differs NAME` with what the case states and what came.
#![tactic(auto)]

mod case;
mod cells;
mod choices;
mod fields;
mod judge;
mod lines;
mod parts;
mod reader;
mod recorded;
mod repeat;

use anyhow::{Context, Result, ensure};
use case::Case;
use judge::judge_case;
use reader::Reader;
use std::alloc::Global;
use std::{env, fs};

fn main(rt: HostRuntime) -> Result<()> {
    let mut differing = 0u64;
    for name in env::args(&rt)?.skip(1) {
        let text = fs::read_to_string(&rt, name.as_str())?;
        differing = differing.saturating_add(judge_file(&rt, rt.alloc(), &text)?);
    }
    ensure!(differing == 0, "{differing} cases differ");
    Ok(())
}

// Runs the cases of a file, and answers how many of them differ.
fn judge_file(rt: &impl Print, alloc: Global, text: &str) -> Result<u64> {
    let mut reader = Reader::new(alloc);
    let differing = judge_lines(rt, alloc, text, &mut reader)?;
    Ok(differing.saturating_add(tell(rt, alloc, reader.case())?))
}

// Runs the cases that end with a line.
fn judge_lines(rt: &impl Print, alloc: Global, text: &str, reader: &mut Reader) -> Result<u64> {
    let mut differing = 0u64;
    for (number, line) in text.split('\n').enumerate() {
        let ended = reader
            .take(alloc, line)
            .context(format_args!("line {number}, counted from 0"))?;
        if let Some(case) = ended {
            differing = differing.saturating_add(tell(rt, alloc, &case)?);
        }
    }
    Ok(differing)
}

// Runs a case and says how it ended: 0 where all is as it states, else 1.
fn tell(rt: &impl Print, alloc: Global, case: &Case) -> Result<u64> {
    let name = case.name();
    match judge_case(alloc, case)? {
        None => {
            println!(rt; "ok {name}")?;
            Ok(0)
        }
        Some(difference) => {
            println!(rt; "differs {name}\n{difference}")?;
            Ok(1)
        }
    }
}
