//! From bytes to a script.

ghost use Rattle.std.specs.Prelude.{◌≡◌, ◌≤◌, ◌<◌, ◌↔◌, Err, List, Some, true, length, IfOk, IfErr};
ghost use Rattle.pl_spec.specs.Limits.{most_pipeline_bytes};
ghost use Rattle.pl_grammar.specs.Tree.{mark};
ghost use Rattle.pl_grammar.specs.Script.{is_known, script_finish, token_version, version_or};
ghost use Rattle.pl_grammar.specs.Script as g;
ghost use Rattle.pl_grammar.specs.Whole.{are_sound};
ghost use Rattle.pl_syntax.specs.Sound.{is_written};
ghost use Rattle.pl_grammar.specs.Faults.{Kind, counted};
ghost use Rattle.pl_syntax.specs.Code.{token_of};
ghost use Rattle.pl_syntax.specs.Spells.{Parsed, Spells, FirstFault, OneScriptSpelled};
ghost use Rattle.pl_syntax.specs.Said.{TextsSay};
ghost use Rattle.pl_syntax.specs.Scripts.{parsed, printed_text};
ghost use Rattle.pl_syntax.specs.Stages.{stage_of};
ghost use Rattle.pl_syntax.specs.Parsing.{token_step, Steps, Ends, HasVersion, Outcome, IsCause, AnswersFault, AnswersScript, AnswersSame};
ghost use Rattle.pl_grammar.specs.declared.Place as p;
ghost use Rattle.pl_syntax.specs.declared.script.Script as s;

use crate::error::SyntaxError;
use crate::machine::MoveError;
use crate::progress::{Progress, count_with, is_too_large};
use crate::script::Script;
use crate::stage::{Stage, depth_in, stage_after, version_with};
use crate::text::{Next, Text};
use crate::token::Token;
use pl_grammar::Place;
use std::alloc::Global;

/// The most bytes of a pipeline file.
pub const MOST_BYTES: usize = 262_144;

// The most tokens of a statement.
const MOST_TOKENS: usize = 1_024;

// The most constructs inside one another.
const MOST_DEPTH: usize = 32;

// A token's step, or its fault.
fn step(
    alloc: Global,
    progress: Progress,
    place: Place,
    token: Token,
) -> Result<Progress, SyntaxError>
    ensures { let t = mark place (token_of token) in
        Steps result (token_step progress.count t (stage_of progress.stage))
        (counted progress.count t) (version_or progress.version (token_version (token_of token))) place }
{
    if progress.count >= MOST_TOKENS {
        drop(progress);
        drop(token);
        return Err(SyntaxError::LongStatement(place));
    }
    if is_too_large(&token) {
        drop(progress);
        drop(token);
        return Err(SyntaxError::NumberTooLarge(place));
    }
    let count = count_with(&token, progress.count);
    let version = version_with(&token, progress.version);
    match stage_after(alloc, progress.stage, place, token) {
        Ok(stage) => {
            if depth_in(&stage) <= MOST_DEPTH {
                Ok(Progress {
                    stage,
                    count,
                    version,
                })
            } else {
                drop(stage);
                Err(SyntaxError::TooDeep(place))
            }
        }
        Err(MoveError::Unexpected) => Err(SyntaxError::Unexpected(place)),
        Err(MoveError::Memory) => Err(SyntaxError::Memory),
    }
}

// The end of the file.
fn finish(progress: Progress, end: Place) -> Result<Script, SyntaxError>
    requires known { (ss : List g.Statement) → script_finish (stage_of progress.stage) ≡ Some ss
        → is_known progress.version ≡ true }
    requires sound { (ss : List g.Statement) → script_finish (stage_of progress.stage) ≡ Some ss
        → are_sound is_written ss ≡ true }
    ensures ends { Ends result (script_finish (stage_of progress.stage)) end }
    ensures version { HasVersion result progress.version }
{
    let version = progress.version;
    let stage = progress.stage;
    match stage {
        Stage::Between { statements } => Ok(Script::new(version, statements, end)),
        unended => {
            drop(unended);
            Err(SyntaxError::Unexpected(end))
        }
    }
}

// The script that the bytes spell, or their first fault.
fn read_all(alloc: Global, bytes: &[u8]) -> Result<Script, SyntaxError>
    requires { length bytes.now ≤ most_pipeline_bytes }
    ensures { Outcome bytes.now result }
{
    let mut text = Text {
        bytes,
        place: Place { line: 1, col: 1 },
    };
    let mut progress = Progress {
        stage: Stage::Opening,
        count: 0,
        version: 0,
    };
    loop {
        match text.next(alloc) {
            Ok(Next::Token(place, token)) => progress = step(alloc, progress, place, token)?,
            Ok(Next::Bad(place)) => {
                drop(progress);
                return Err(SyntaxError::BadByte(place));
            }
            Ok(Next::End(place)) => return finish(progress, place),
            Err(_) => {
                drop(progress);
                return Err(SyntaxError::Memory);
            }
        }
    }
}

/// The script that the bytes of a pipeline file spell. The error is the first fault in the text, with its
/// place but for `TooLong`, or want of memory. The language is this project's own (docs/LANGUAGE.md).
pub fn parse(alloc: Global, bytes: &[u8]) -> Result<Script, SyntaxError>
    // What is read is spelled so, and what is spelled so is read.
    ensures found { IfOk result (λ script. Spells bytes.now (parsed script)) }
    ensures only { (x : Parsed) → length bytes.now ≤ most_pipeline_bytes → Spells bytes.now x
        → AnswersScript result x }

    // The canonical text of a script is read as that script, places aside.
    ensures printed { (script : s.Script) → length bytes.now ≤ most_pipeline_bytes → bytes.now ≡ printed_text script
        → AnswersSame result (parsed script) }

    // Each fault comes where it is the first, and what is the first is answered.
    ensures too_long { (result ≡ Err SyntaxError.TooLong) ↔ (most_pipeline_bytes < length bytes.now) }
    ensures cause { IfErr result (IsCause bytes.now) }
    ensures fault { (kind : Kind) (place : p.Place) → length bytes.now ≤ most_pipeline_bytes
        → FirstFault bytes.now kind place → AnswersFault result kind place }
{
    if bytes.len() > MOST_BYTES {
        return Err(SyntaxError::TooLong);
    }
    read_all(alloc, bytes)
}

/// No bytes spell two scripts.
pub fn one_script_spelled()
    ensures { OneScriptSpelled }
{}

/// What a text says, by the verdict over its tokens, is the script that it spells or its first fault.
pub fn texts_say()
    ensures { TextsSay }
{}
