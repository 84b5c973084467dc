//! Whether a case's commands leave what it states.

use crate::case::{Case, copy_words};
use crate::cells::cells_differ;
use crate::parts::{Failing, Left, Parts, SOUND, left_by};
use anyhow::Result;
use std::alloc::Global;

/// The first difference between what a case states and what is left; none where there is none.
pub(crate) fn judge_case(alloc: Global, case: &Case) -> Result<Option<String>> {
    if case.choices().is_empty() {
        return judge_commands(alloc, case.commands(), case);
    }
    for choice in case.choices() {
        let chosen = case.chosen(alloc, choice)?;
        let difference = judge_commands(alloc, case.commands(), &chosen)?;
        if difference.is_some() {
            return Ok(difference);
        }
    }
    Ok(None)
}

fn judge_commands(alloc: Global, commands: &[Vec<String>], case: &Case) -> Result<Option<String>> {
    for words in commands {
        let difference = judge_command(alloc, case, words)?;
        if difference.is_some() {
            return Ok(difference);
        }
    }
    Ok(None)
}

fn judge_command(alloc: Global, case: &Case, words: &[String]) -> Result<Option<String>> {
    if case.chunks().is_empty() {
        return judge_words(alloc, case, words);
    }
    for chunk in case.chunks() {
        let mut words = copy_words(alloc, words)?;
        words.push(String::from_str(alloc, "--chunk")?)?;
        words.push(String::from_str(alloc, chunk)?)?;
        let difference = judge_words(alloc, case, &words)?;
        if difference.is_some() {
            return Ok(difference);
        }
    }
    Ok(None)
}

fn judge_words(alloc: Global, case: &Case, words: &[String]) -> Result<Option<String>> {
    let left = left_by(alloc, case, words, SOUND)?;
    let wanted = wanted_of(alloc, case, &left)?;
    if left != wanted || further_differs(alloc, case, words, &left)? {
        return Ok(Some(told(alloc, words, &wanted, &left)?));
    }
    judge_failing(alloc, case, words, &wanted)
}

fn further_differs(alloc: Global, case: &Case, words: &[String], left: &Left) -> Result<bool> {
    if case.has("failing err") && !holds_without_err(alloc, case, words, SOUND, left)? {
        return Ok(true);
    }
    if case.cells() {
        cells_differ(alloc, case, words, &left.out)
    } else {
        Ok(false)
    }
}

// What a case states. Its `out` may stand open, where its cells are stated, and so may `loaded`.
fn wanted_of(alloc: Global, case: &Case, left: &Left) -> Result<Left> {
    let out = if case.has("out by cells") {
        left.out.as_slice()
    } else {
        case.text("out")
    };
    let loaded = if case.has("loaded") {
        case.text("loaded")
    } else {
        left.loaded.as_slice()
    };
    Ok(Left {
        status: case.status(),
        out: out.to_vec(alloc)?,
        err: case.text("err").to_vec(alloc)?,
        loaded: loaded.to_vec(alloc)?,
    })
}

/// A part that fails.
#[derive(Clone, Copy, PartialEq, Eq)]
enum Part {
    Shelf,
    Keeper,
    Out,
}

impl Part {
    fn title(self) -> &'static str {
        match self {
            Part::Shelf => "failing shelf",
            Part::Keeper => "failing keeper",
            Part::Out => "failing out",
        }
    }

    fn status(self) -> u8 {
        match self {
            Part::Shelf => 7,
            Part::Keeper => 8,
            Part::Out => 9,
        }
    }

    fn failing(self, call: u64) -> Failing {
        match self {
            Part::Shelf => Failing {
                shelf: call,
                ..SOUND
            },
            Part::Keeper => Failing {
                keeper: call,
                ..SOUND
            },
            Part::Out => Failing { out: call, ..SOUND },
        }
    }
}

fn judge_failing(
    alloc: Global,
    case: &Case,
    words: &[String],
    wanted: &Left,
) -> Result<Option<String>> {
    for part in [Part::Shelf, Part::Keeper, Part::Out] {
        if case.has(part.title()) {
            let difference = judge_part(alloc, case, words, part, wanted)?;
            if difference.is_some() {
                return Ok(difference);
            }
        }
    }
    Ok(None)
}

// The calls of a part fail one after the other. Two runs over the same parts make no call more than these,
// each twice.
fn judge_part(
    alloc: Global,
    case: &Case,
    words: &[String],
    part: Part,
    wanted: &Left,
) -> Result<Option<String>> {
    let lines = String::from_utf8_lossy(alloc, case.text(part.title()))?;
    let mut call = 0u64;
    for line in lines.lines() {
        call = call.saturating_add(1);
        let difference = judge_call(alloc, case, words, part, call, line)?;
        if difference.is_some() {
            return Ok(difference);
        }
    }
    let past = call.saturating_mul(2).saturating_add(1);
    let mut parts = Parts::new(alloc, case, part.failing(past))?;
    let left = parts.leave(alloc, words)?;
    let difference = compare(alloc, words, wanted, &left)?;
    if difference.is_some() {
        return Ok(difference);
    }
    judge_again(alloc, case, words, &mut parts)
}

// A call of a part fails, which leaves this line, and then a run is made over the same parts, none of whose
// calls fails.
fn judge_call(
    alloc: Global,
    case: &Case,
    words: &[String],
    part: Part,
    call: u64,
    line: &str,
) -> Result<Option<String>> {
    let text = format!(in alloc; "{line}\n")?;
    let mut parts = Parts::new(alloc, case, part.failing(call))?;
    let left = parts.leave(alloc, words)?;
    if !is_failed(part, case, text.as_bytes(), call, &left)
        || !holds_without_err(alloc, case, words, part.failing(call), &left)?
    {
        let failed = failed(alloc, part, text.as_bytes())?;
        return Ok(Some(told(alloc, words, &failed, &left)?));
    }
    judge_again(alloc, case, words, &mut parts)
}

fn judge_again(
    alloc: Global,
    case: &Case,
    words: &[String],
    parts: &mut Parts,
) -> Result<Option<String>> {
    let again = parts.leave(alloc, words)?;
    let wanted = wanted_of(alloc, case, &again)?;
    compare(alloc, words, &wanted, &again)
}

// What differs, where something does.
fn compare(alloc: Global, words: &[String], wanted: &Left, left: &Left) -> Result<Option<String>> {
    if left == wanted {
        Ok(None)
    } else {
        Ok(Some(told(alloc, words, wanted, left)?))
    }
}

fn is_failed(part: Part, case: &Case, line: &[u8], call: u64, left: &Left) -> bool {
    let beginning = match part {
        Part::Out => is_beginning(case, call, &left.out),
        Part::Shelf | Part::Keeper => left.out.is_empty(),
    };
    left.status == part.status() && left.err.as_slice() == line && beginning
}

// Whether `out` holds what it took before this call of it, which fails: a beginning of its text, and where
// each call takes a line, a line for each call before.
fn is_beginning(case: &Case, call: u64, out: &[u8]) -> bool {
    let lines = out.iter().filter(|&&byte| byte == b'\n').count() as u64;
    out.len() < case.text("out").len()
        && case.text("out").starts_with(out)
        && (!case.has("out by lines")
            || (lines.saturating_add(1) == call && (out.is_empty() || out.ends_with(b"\n"))))
}

// An `err` whose first call fails, or the second, up to the eighth, changes neither the status nor `out`, and
// takes a beginning of its text; nothing where it is the first.
fn holds_without_err(
    alloc: Global,
    case: &Case,
    words: &[String],
    failing: Failing,
    left: &Left,
) -> Result<bool> {
    let mut room = 0;
    for before in 0..8 {
        let failing = Failing {
            err: before + 1,
            ..failing
        };
        let untold = left_by(alloc, case, words, failing)?;
        if !is_untold(left, &untold, room) {
            return Ok(false);
        }
        room = left.err.len();
    }
    Ok(true)
}

fn is_untold(left: &Left, untold: &Left, room: usize) -> bool {
    untold.status == left.status
        && untold.out == left.out
        && left.err.starts_with(&untold.err)
        && untold.err.len() <= room
}

fn failed(alloc: Global, part: Part, line: &[u8]) -> Result<Left> {
    Ok(Left {
        status: part.status(),
        out: Vec::new(alloc),
        err: line.to_vec(alloc)?,
        loaded: Vec::new(alloc),
    })
}

// What the case states and what came.
fn told(alloc: Global, words: &[String], wanted: &Left, left: &Left) -> Result<String> {
    let mut text = String::new(alloc);
    tell_words(&mut text, words)?;
    tell_left(alloc, &mut text, "wanted", wanted)?;
    tell_left(alloc, &mut text, "came", left)?;
    Ok(text)
}

fn tell_words(text: &mut String, words: &[String]) -> Result<()> {
    for word in words {
        text.push_str(word)?;
        text.push_str(" ")?;
    }
    Ok(())
}

fn tell_left(alloc: Global, text: &mut String, title: &str, left: &Left) -> Result<()> {
    let status = left.status;
    text.push_str(&format!(in alloc; "\n{title} {status}\n")?)?;
    text.push_str(&beginning(alloc, &left.out)?)?;
    text.push_str(&beginning(alloc, &left.err)?)?;
    text.push_str(&beginning(alloc, &left.loaded)?)?;
    Ok(())
}

// Up to 2,000 bytes of a text.
fn beginning(alloc: Global, bytes: &[u8]) -> Result<String> {
    let most = bytes.len().min(2_000);
    Ok(String::from_utf8_lossy(alloc, &bytes[..most])?)
}
