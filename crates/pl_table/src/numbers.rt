//! The line that tells the numbers of a run.

ghost use Rattle.std.specs.Prelude.{◌≡◌, ◌++◌};
ghost use Rattle.pl_outside.specs.Taken.{Writes};
ghost use Rattle.pl_table.specs.Numbers.{numbers_line, present_text, stats_line};

use itoa::Buffer;
use pl_outside::{Failed, Sink, write_pieces};

/// The numbers of a run: how many rows it has, the sum of their cells modulo 2^64 (in millionths, a filter's
/// 1 or 0, a classifier's number or code, what is missing 0), the greatest number of arrays that are held at
/// once, and how many its plan allows.
#[derive(Clone, Copy, Debug, PartialEq, Eq)]
pub struct Numbers {
    pub rows: u64,
    pub cells: u64,
    pub peak: usize,
    pub bound: usize,
}

/// Writes `rows=R cells=C peak=P bound=B` and a line end. `Failed` comes where the sink counted a fault. It
/// takes no memory.
pub fn write_numbers<O: Sink>(out: &mut O, numbers: Numbers) -> Result<(), Failed>
    ensures { Writes O.taken O.faults O.sound O.room out.old out.new
        (numbers_line numbers.rows numbers.cells numbers.peak numbers.bound) result }
{
    let mut rows = Buffer::new();
    let mut cells = Buffer::new();
    let mut peak = Buffer::new();
    let mut bound = Buffer::new();
    write_pieces(
        out,
        &[
            "rows=",
            rows.format(numbers.rows),
            " cells=",
            cells.format(numbers.cells),
            " peak=",
            peak.format(numbers.peak),
            " bound=",
            bound.format(numbers.bound),
            "\n",
        ],
    )
}

/// Writes `rows=R cells=C peak=P bound=B applied=A` and a line end, where so many adjustments were applied to
/// buffered bars. Where `present` tells how many cells of numbers beside bars are present, the line ends with
/// ` numbers=N`. `Failed` comes where the sink counted a fault. It takes no memory.
pub fn write_stats<E: Sink>(
    err: &mut E,
    numbers: Numbers,
    applied: u64,
    present: Option<u64>,
) -> Result<(), Failed>
    ensures { Writes E.taken E.faults E.sound E.room err.old err.new
        (stats_line numbers.rows numbers.cells numbers.peak numbers.bound applied present) result }
{
    let mut rows = Buffer::new();
    let mut cells = Buffer::new();
    let mut peak = Buffer::new();
    let mut bound = Buffer::new();
    let mut steps = Buffer::new();
    let mut digits = Buffer::new();
    let rows = rows.format(numbers.rows);
    let cells = cells.format(numbers.cells);
    let peak = peak.format(numbers.peak);
    let bound = bound.format(numbers.bound);
    let steps = steps.format(applied);
    let (name, count) = present_pieces(present, &mut digits);
    write_pieces(
        err,
        &[
            "rows=",
            rows,
            " cells=",
            cells,
            " peak=",
            peak,
            " bound=",
            bound,
            " applied=",
            steps,
            name,
            count,
            "\n",
        ],
    )
}

// What tells how many numbers are present: its name and its digits, both empty where it is not told.
fn present_pieces(present: Option<u64>, digits: &mut Buffer) -> (&str, &str)
    ensures { result.0.now ++ result.1.now ≡ present_text present }
{
    match present {
        None => ("", ""),
        Some(count) => (" numbers=", digits.format(count)),
    }
}
