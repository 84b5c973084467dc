//! The top call.

ghost use Rattle.std.specs.Prelude.{◌≡◌, ◌++◌, ℕ, List, Some, None, map, option_map, string_bytes, IfSome};
ghost use Rattle.pl_outside.specs.Counts.{Rose};
ghost use Rattle.pl_outside.specs.Left.{Leaves, LeavesSink, IsUntouched};
ghost use Rattle.pl_outside.specs.Taken.{IsTold};
ghost use Rattle.pl_words.specs.Request.{HasChunk, request, adjustments_of};
ghost use Rattle.pl_words.specs.Views.{request_of};
ghost use Rattle.pl_cli.specs.Runs.{IsRun};
ghost use Rattle.pl_load.specs.Views.{change, shelf_change, keeper_change};
ghost use Rattle.pl_cli.specs.Commands.{IsAnswered, outcome_line, outcome_numbers, outcome_status, fault_of, line_of_numbers};
ghost use Rattle.pl_load.specs.Faults.{judged_line};
ghost use Rattle.pl_cli.specs.Views.{outside, sink_change};

use crate::cells::explain_command;
use crate::commands::{Stats, check_command, fmt_command, plan_command, run_command};
use crate::daily::daily_command;
use crate::derivations::verify_command;
use crate::parts::cut_command;
use crate::payouts::payouts_command;
use crate::stated::bench_command;
use crate::windows::windows_command;
use pl_fixed::Steps;
use pl_load::{Fault, write_line};
use pl_outside::{AdjustKeeper, Shelf, Sink};
use pl_table::write_stats;
use pl_words::{Request, read_words};
use std::alloc::Global;
use std::sync::ledger::Ledger;

/// Runs the program on the words after its name:
///
/// - `run PIPELINE SESSIONS ASSETS BARS FROM TO`, with the options `--labels NAME`, `--numbers NAME`,
///   `--results NAME`, `--adjustments NAME`, `--revisions NAME`, `--chunk N`, `--format csv`,
///   `--format fixed`, `--stats` and `--asof DATE` anywhere among these words, reads the files from the shelf
///   and the adjustments from the keeper, and writes the table of the sessions FROM to TO to `out`, computed
///   N sessions at a time, 126 where N is not given, and with `--asof` over what is known by that session;
///   with `--stats` it writes its numbers on `err`;
/// - `fmt PIPELINE` writes the canonical text of the pipeline file;
/// - `check PIPELINE` writes how many terms and columns its pipeline has;
/// - `plan PIPELINE SESSIONS FROM TO` writes what is computed for these sessions: a line for each used term,
///   and the least session whose bars are read;
/// - `payouts SESSIONS ASSETS BARS PAYOUTS` writes the rows of the payouts file for the table of dividends,
///   or why a payout has none;
/// - `explain PIPELINE SESSIONS ASSETS BARS SID DATE COLUMN`, with the options `--labels NAME`,
///   `--numbers NAME`, `--results NAME`, `--adjustments NAME` and `--revisions NAME`, writes the derivation
///   of a cell;
/// - `verify PIPELINE SESSIONS ASSETS BARS DERIVATION`, with the same options, writes whether all lines of a
///   derivation are right, or the number of the first that is not;
/// - `daily PIPELINE SESSIONS ASSETS BARS FROM TO`, with the same options and `--format csv` and
///   `--format fixed`, writes the table that `run` has, computed session by session from the first one on;
/// - `cut PIPELINE SESSIONS ASSETS BARS FROM TO`, with the options `--labels NAME`, `--numbers NAME`,
///   `--results NAME`, `--adjustments NAME` and `--revisions NAME`, and with `--part` and one of `sessions`,
///   `assets`, `bars`, `labels`, `numbers`, which are those of both files, `splits`, `mergers`, `dividends`
///   and `revisions`, writes that part of what the rows of `run` read, in the form of its file;
/// - `windows SESSIONS ASSETS BARS COLUMN FROM TO WINDOW`, with the options `--adjustments NAME` and
///   `--revisions NAME`, writes the windows of so many sessions over the bar column, for the sessions FROM to
///   TO: of each window its newest cell, and all its cells where others changed;
/// - `bench NUMBER`, with the option `--chunk N`, runs a pipeline of the program's own over the stated world
///   of the number, and writes the numbers of that run.
///
/// It answers the status:
///
/// - 0: all was read, judged and written;
/// - 2: the words are of none of these forms;
/// - 3: the pipeline file is not in the language, by its syntax or, but for `fmt`, by its rules; or a command
///   that reads bars is given a pipeline with a number, and no file of numbers;
/// - 4: a record of a data file or a row of the adjustments breaks a rule; 5: the range is not one of
///   sessions with the bars that the columns show, or the cell is none of the table's; 6: a limit is passed;
/// - 7: the shelf counted a fault; 8: the keeper did; 9: `out` did, and it took a prefix of the text;
/// - 10: memory ran out before the first byte.
///
/// Every status but 0 has its line on `err`; status 0 has none but the numbers that are asked for. The first
/// fault in the order of work decides: the words, the pipeline file, the sessions, the assets, the labels,
/// the numbers, the results, the bars, the payouts, the adjustments, the revisions, the range or the cell,
/// the derivation. The parts are handed back, so that a caller can run again.
pub fn run_program<S: Shelf, K: AdjustKeeper, O: Sink, E: Sink, L: Ledger>(
    alloc: Global,
    words: &[String],
    shelf: &mut S,
    keeper: &mut K,
    out: &mut O,
    err: &mut E,
    steps: &mut Steps<L>,
) -> u8
    // Whatever the parts are, the run ended as the definitions say over exactly what was given of the files
    // and loaded of the tables in this call.
    ensures run { let asked = request (map (λ s. string_bytes s) words.now) in
        (line : List ℕ) × (numbers : List ℕ)
        × IsRun (outside (shelf_change S.Shelf shelf.old shelf.new)
        (keeper_change K.AdjustKeeper keeper.old keeper.new) (sink_change O.Sink out.old out.new)
        (change steps.old steps.new)) asked result line numbers
        × IsTold E.taken E.faults E.sound E.room err.old err.new (line ++ numbers) }

    // The words decide of status 2, unless memory runs out as they are read, and a part that failed has
    // counted it.
    ensures usage { result ≡ 2 → request (map (λ s. string_bytes s) words.now) ≡ None }
    ensures refused { request (map (λ s. string_bytes s) words.now) ≡ None → ¬ (result ≡ 10) → result ≡ 2 }
    ensures read { result ≡ 7 → Rose (S.faults shelf.old) (S.faults shelf.new) }
    ensures store { result ≡ 8 → Rose (K.faults keeper.old) (K.faults keeper.new) }
    ensures write { result ≡ 9 → Rose (O.faults out.old) (O.faults out.new) }

    // With another status than 0 and 9 `out` is as it was, and no step is counted.
    ensures kept { ¬ (result ≡ 0) → ¬ (result ≡ 9)
        → (O.taken out.new ≡ O.taken out.old) × (O.room out.new ≡ O.room out.old) × (steps.new ≡ steps.old) }

    // A keeper is left alone where no adjustments are asked for, and all parts tell what they told.
    ensures alone { adjustments_of (request (map (λ s. string_bytes s) words.now)) ≡ None
        → IsUntouched K.faults K.calls keeper.old keeper.new }
    ensures shelf { Leaves S.holds S.sound S.faults shelf.old shelf.new }
    ensures keeper { Leaves K.lists K.sound K.faults keeper.old keeper.new }
    ensures out { LeavesSink O.sound O.faults out.old out.new }
    ensures err { LeavesSink E.sound E.faults err.old err.new }
{
    let outcome = work_on(alloc, words, shelf, keeper, out, steps);
    let status = outcome.status();
    outcome.tell(err);
    status
}

/// How the work on the words ended: what they ask for, and the numbers or the fault. It is told by `tell`,
/// once the caller has written what it gathered of the text.
#[derive(Drop)]
pub struct Outcome<'a> {
    pub asked: Option<Request<'a>>,
    pub ended: Result<Option<Stats>, Fault>,
}

impl Outcome<'_> {
    /// 0, or the status of the fault.
    pub fn status(&self) -> u8
        ensures { result ≡ outcome_status self.now }
    {
        match self.ended {
            Ok(_) => 0,
            Err(fault) => fault.status(),
        }
    }

    /// Writes the line of the fault to `err`, or the numbers where they are asked for. What becomes of that
    /// changes nothing.
    pub fn tell<E: Sink>(&self, err: &mut E)
        ensures told { IsTold E.taken E.faults E.sound E.room err.old err.new
            (outcome_line self.now ++ outcome_numbers self.now) }
        ensures err { LeavesSink E.sound E.faults err.old err.new }
    {
        tell_ended(self.ended, self.asked.as_ref(), err);
    }
}

/// Does what `run_program` does, up to what is told of it on `err`.
pub fn work_on<'a, S: Shelf, K: AdjustKeeper, O: Sink, L: Ledger>(
    alloc: Global,
    words: &'a [String],
    shelf: &mut S,
    keeper: &mut K,
    out: &mut O,
    steps: &mut Steps<L>,
) -> Outcome<'a>
    ensures run { IsRun (outside (shelf_change S.Shelf shelf.old shelf.new)
        (keeper_change K.AdjustKeeper keeper.old keeper.new) (sink_change O.Sink out.old out.new)
        (change steps.old steps.new)) (request (map (λ s. string_bytes s) words.now))
        (outcome_status result) (outcome_line result) (outcome_numbers result) }
    ensures usage { outcome_status result ≡ 2 → request (map (λ s. string_bytes s) words.now) ≡ None }
    ensures refused { request (map (λ s. string_bytes s) words.now) ≡ None
        → ¬ (outcome_status result ≡ 10) → outcome_status result ≡ 2 }
    ensures read { outcome_status result ≡ 7 → Rose (S.faults shelf.old) (S.faults shelf.new) }
    ensures store { outcome_status result ≡ 8 → Rose (K.faults keeper.old) (K.faults keeper.new) }
    ensures write { outcome_status result ≡ 9 → Rose (O.faults out.old) (O.faults out.new) }
    ensures kept { ¬ (outcome_status result ≡ 0) → ¬ (outcome_status result ≡ 9)
        → (O.taken out.new ≡ O.taken out.old) × (O.room out.new ≡ O.room out.old) × (steps.new ≡ steps.old) }
    ensures alone { adjustments_of (request (map (λ s. string_bytes s) words.now)) ≡ None
        → IsUntouched K.faults K.calls keeper.old keeper.new }
    ensures shelf { Leaves S.holds S.sound S.faults shelf.old shelf.new }
    ensures keeper { Leaves K.lists K.sound K.faults keeper.old keeper.new }
    ensures out { LeavesSink O.sound O.faults out.old out.new }
{
    match read_words(alloc, words) {
        Ok(asked) => {
            let ended = answer(alloc, asked.as_ref(), shelf, keeper, out, steps);
            Outcome { asked, ended }
        }
        Err(_) => Outcome {
            asked: None,
            ended: Err(Fault::Memory),
        },
    }
}

// Does the work that is asked for, up to what is told of it.
fn answer<S: Shelf, K: AdjustKeeper, O: Sink, L: Ledger>(
    alloc: Global,
    asked: Option<&Request<'_>>,
    shelf: &mut S,
    keeper: &mut K,
    out: &mut O,
    steps: &mut Steps<L>,
) -> Result<Option<Stats>, Fault>
    requires chunk { IfSome (option_map (λ q. request_of q.now) asked) HasChunk }
    ensures { IsAnswered (shelf_change S.Shelf shelf.old shelf.new)
        (keeper_change K.AdjustKeeper keeper.old keeper.new)
        (sink_change O.Sink out.old out.new)
        (change steps.old steps.new) (option_map (λ q. request_of q.now) asked.entry) result }
{
    match asked {
        None => Err(Fault::Usage),
        Some(Request::Run(request)) => run_command(alloc, request, shelf, keeper, out, steps),
        Some(Request::Fmt(name)) => fmt_command(alloc, name, shelf, out),
        Some(Request::Check(name)) => check_command(alloc, name, shelf, out),
        Some(Request::Plan(request)) => plan_command(alloc, request, shelf, out),
        Some(Request::Bench(request)) => bench_command(alloc, request, out, steps),
        Some(Request::Payouts(request)) => payouts_command(alloc, request, shelf, out),
        Some(Request::Explain(request)) => explain_command(alloc, request, shelf, keeper, out),
        Some(Request::Verify(request)) => verify_command(alloc, request, shelf, keeper, out),
        Some(Request::Daily(request)) => daily_command(alloc, request, shelf, keeper, out, steps),
        Some(Request::Cut(request)) => cut_command(alloc, request, shelf, keeper, out),
        Some(Request::Windows(request)) => windows_command(alloc, request, shelf, keeper, out),
    }
}

// Tells the fault or the numbers.
fn tell_ended<E: Sink>(
    ended: Result<Option<Stats>, Fault>,
    asked: Option<&Request<'_>>,
    err: &mut E,
)
    ensures told { IsTold E.taken E.faults E.sound E.room err.old err.new
        (judged_line (option_map (λ q. request_of q.now) asked.entry) (fault_of ended)
        ++ line_of_numbers ended) }
    ensures err { LeavesSink E.sound E.faults err.old err.new }
{
    match ended {
        Ok(None) => {}
        Ok(Some(stats)) => {
            let _ = write_stats(err, stats.numbers, stats.applied, stats.present);
        }
        Err(fault) => {
            let _ = write_line(err, asked, fault);
        }
    }
}
