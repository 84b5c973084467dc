//! The program over the words that the system answered, a shelf, a keeper, and two streams.

ghost use Rattle.std.specs.Prelude.{◌≡◌, ◌⊎◌, ◌<◌, ℕ, [], drop, map, string_bytes, IfOk, IfErr, IsOk};
ghost use Rattle.std.specs.IoError.{error_kind};
ghost use Rattle.std.specs.Io.Buffered.{writer_buffer};
ghost use Rattle.std.specs.Process.{exit_status};
ghost use Rattle.std.specs.Vec.Iter.{into_iter_items};
ghost use Rattle.pl_outside.specs.Left.{LeavesSink};
ghost use Rattle.pl_words.specs.Request.{request};
ghost use Rattle.pl_load.specs.Views.{change, shelf_change, keeper_change};
ghost use Rattle.pl_cli.specs.Commands.{outcome_line, outcome_numbers, outcome_status};
ghost use Rattle.pl_cli.specs.Runs.{IsRun};
ghost use Rattle.pl_cli.specs.Views.{outside, sink_change};
ghost use Rattle.pl_edge.specs.Starts.{IsCauseOf};
ghost use Rattle.pl_main.specs.Ends.{EndsAfterRun, EndsBefore, EndsForMemory};
ghost use Rattle.pl_main.specs.Outputs.{taken_by};

use pl_cli::{Outcome, work_on};
use pl_edge::{StartError, Stream, ended, flushed, words};
use pl_fixed::Steps;
use pl_outside::{AdjustKeeper, Shelf, Sink, write_bytes};
use std::alloc::Global;
use std::env::Args;
use std::io::{self, BufWriter, ErrorKind, Write};
use std::process::ExitCode;
use std::sync::ledger::{Blank, Ledger};

/// How many bytes are gathered before standard output is written.
pub const GATHERED: usize = 65_536;

/// Runs the program once on the words that the system answered, without the first, and answers the status of
/// the process:
///
/// - that of `run_program` over these words, whose line and numbers are told to `err`, after all of the text;
/// - 9 where that is 0 and what was gathered for `out` could not be written; then the line `write` alone is
///   told;
/// - 2 with the line `usage` where a word is no text in UTF-8, and 10 with the line `memory` where there is
///   no memory for the words or for what `out` gathers: then nothing was run.
///
/// Of a run with status 0 `out` took exactly the text over what the shelf gave and the keeper loaded in this
/// call, and of another nothing but a prefix of it. With status 0 nothing is left in what `out` gathers.
pub fn program<S: Shelf, K: AdjustKeeper, L: Ledger, W: Write + Drop, E: Sink>(
    alloc: Global,
    args: io::Result<Args>,
    shelf: &mut S,
    keeper: &mut K,
    out: &mut io::Result<Stream<BufWriter<W>>>,
    err: &mut E,
    blank: Blank,
) -> ExitCode
    requires name { blank.name ≡ L.name }
    requires parts { blank.parts ≡ L.parts }
    requires some { 0 < L.parts }
    ensures run { IfOk args (λ args.
        let asked = request (map (λ s. string_bytes s) (drop 1 (into_iter_items args))) in
        (IsOk out.old × EndsAfterRun E.Sink asked (shelf_change S.Shelf shelf.old shelf.new)
        (keeper_change K.AdjustKeeper keeper.old keeper.new) (change (taken_by out.old) (taken_by out.new))
        (change err.old err.new) (exit_status result))
        ⊎ EndsForMemory E.Sink err.old err.new (exit_status result)) }
    ensures refused { IfErr args (λ error. (why : StartError)
        × IsCauseOf (error_kind error ≡ ErrorKind.OutOfMemory) why
        × EndsBefore E.Sink why err.old err.new (exit_status result)) }
    ensures written { exit_status result ≡ 0 → IfOk out.new (λ out. writer_buffer out.to ≡ []) }
    ensures begun { exit_status result ≡ 0 → IsOk out.old }
    ensures err { LeavesSink E.sound E.faults err.old err.new }
{
    let words = match words(alloc, args) {
        Ok(words) => words,
        Err(why) => return ended(err, why),
    };
    match out {
        Ok(out) => {
            ExitCode::from(whole::<S, K, L, _, _>(alloc, &words, shelf, keeper, out, err, blank))
        }
        Err(_) => ended(err, StartError::Memory),
    }
}

// Runs, writes what was gathered, and then tells how it ended.
fn whole<S: Shelf, K: AdjustKeeper, L: Ledger, W: Write + Drop, E: Sink>(
    alloc: Global,
    words: &[String],
    shelf: &mut S,
    keeper: &mut K,
    out: &mut Stream<BufWriter<W>>,
    err: &mut E,
    blank: Blank,
) -> u8
    requires name { blank.name ≡ L.name }
    requires parts { blank.parts ≡ L.parts }
    requires some { 0 < L.parts }
    ensures run { EndsAfterRun E.Sink (request (map (λ s. string_bytes s) words.now))
        (shelf_change S.Shelf shelf.old shelf.new) (keeper_change K.AdjustKeeper keeper.old keeper.new)
        (change out.old.log.bytes out.new.log.bytes) (change err.old err.new) result }
    ensures written { result ≡ 0 → writer_buffer out.new.to ≡ [] }
    ensures err { LeavesSink E.sound E.faults err.old err.new }
{
    let outcome = run::<S, K, L, _>(alloc, words, shelf, keeper, out, blank);
    let status = flushed(out, outcome.status());
    if status == outcome.status() {
        outcome.tell(err);
    } else {
        let _ = write_bytes(err, b"write\n");
    }
    status
}

// Runs once: what `work_on` ensures, with a counter of its own.
fn run<'a, S: Shelf, K: AdjustKeeper, L: Ledger, O: Sink>(
    alloc: Global,
    words: &'a [String],
    shelf: &mut S,
    keeper: &mut K,
    out: &mut O,
    blank: Blank,
) -> Outcome<'a>
    requires name { blank.name ≡ L.name }
    requires parts { blank.parts ≡ L.parts }
    requires some { 0 < L.parts }
    ensures run { (steps : ℕ) × IsRun (outside (shelf_change S.Shelf shelf.old shelf.new)
        (keeper_change K.AdjustKeeper keeper.old keeper.new) (sink_change O.Sink out.old out.new)
        (change 0 steps)) (request (map (λ s. string_bytes s) words.now))
        (outcome_status result) (outcome_line result) (outcome_numbers result) }
    ensures kept { ¬ (outcome_status result ≡ 0) → ¬ (outcome_status result ≡ 9)
        → O.taken out.new ≡ O.taken out.old }
{
    let mut steps = Steps::<L>::new(blank);
    work_on(alloc, words, shelf, keeper, out, &mut steps)
}
