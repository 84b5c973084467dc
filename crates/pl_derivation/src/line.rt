//! The lines of derivations, and lists of them.

ghost use Rattle.std.specs.Prelude.{◌≡◌, ◌<◌, ◌≤◌, All, Some, length, map, slice_get};
ghost use Rattle.pl_spec.specs.Limits.{most_lines};
ghost use Rattle.pl_spec.specs.Rounding.{IsCell};
ghost use Rattle.pl_derivation.specs.Listed.{line_of};
ghost use Rattle.pl_derivation.specs.Texts.{IsWritable, AreWritable};

use pl_spec::Column;
use std::marker::Model;

/// The cells of a bar, in millionths or `MISSING`: as it is in the file, and after each event in turn.
#[derive(Debug, Drop)]
pub struct CellList {
    cells: Vec<i64>,
}

impl Model for CellList {
    ghost use Rattle.std.specs.Prelude.{ℤ, List};

    ghost Value = { List ℤ };

    ghost view = { λ c. c.cells.items };
}

impl CellList {
    /// The list of these cells.
    pub fn new(cells: Vec<i64>) -> CellList
        requires { All IsCell cells.items }
        ensures { result ≡ cells.items }
    {
        CellList { cells }
    }

    /// Lends the cells, as they came to be: the last one is what is seen.
    pub fn as_slice(&self) -> &[i64]
        ensures { result.now ≡ self.now }
    {
        &self.cells
    }
}

/// That a term has a value for an asset on a day. Days are counted from 1970-01-01; `value` is in millionths,
/// a filter's 1 or 0, a label's code, or `MISSING`.
#[derive(Clone, Copy, Debug)]
pub struct ValueLine {
    pub term: u32,
    pub sid: u32,
    pub day: i32,
    pub value: i64,
    /// The day from which a number beside bars was known; `None` where none was, and for all other terms.
    pub known: Option<i32>,
}

/// That the value of a term for an asset on a day is seen as this from a later day, as a window of that day has
/// it. Days are counted from 1970-01-01; `value` is in millionths, or `MISSING`.
#[derive(Clone, Copy, Debug)]
pub struct SeenValueLine {
    pub term: u32,
    pub sid: u32,
    pub own_day: i32,
    pub day: i32,
    pub value: i64,
}

/// What is said of one fact: a bar as it is seen from a later day, the value of a term, or that value as it is
/// seen from a later day. Days are counted from 1970-01-01.
#[derive(Debug, Drop)]
pub enum Line {
    Seen {
        column: Column,
        sid: u32,
        bar_day: i32,
        day: i32,
        cells: CellList,
    },
    Value(ValueLine),
    SeenValue(SeenValueLine),
}

/// The most lines of a derivation. The limit is this project's own.
pub const MOST_LINES: usize = 100_000;

/// A list of at most 100,000 lines in their order, right or not.
#[derive(Debug, Drop)]
pub struct Derivation {
    lines: Vec<Line>,
}

impl Model for Derivation {
    ghost use Rattle.std.specs.Prelude.{◌≤◌, List, length, map};
    ghost use Rattle.pl_derivation.specs.Lines as spec;
    ghost use Rattle.pl_derivation.specs.Listed.{line_of};
    ghost use Rattle.pl_derivation.specs.Texts.{AreWritable};
    ghost use Rattle.pl_spec.specs.Limits.{most_lines};

    ghost Value = { List spec.Line };

    ghost view = { λ d. map line_of d.lines.items };

    ghost invariant = { λ d. AreWritable (map line_of d.lines.items) × (length d.lines.items ≤ most_lines) };
}

impl Derivation {
    /// The derivation of these lines, whose numbers and days have texts: cells, and days from 1900-01-01 to
    /// 2199-12-31.
    pub fn of(lines: Vec<Line>) -> Derivation
        requires writable { AreWritable (map line_of lines.items) }
        requires few { length lines.items ≤ most_lines }
        ensures { result ≡ map line_of lines.items }
    {
        Derivation { lines }
    }

    /// How many lines there are: at most 100,000.
    pub fn len(&self) -> usize
        ensures length { result ≡ length self.now }
        ensures few { result ≤ most_lines }
    {
        self.lines.len()
    }

    /// Lends a line, counted from 0.
    pub fn line(&self, i: usize) -> &Line
        requires { i < length self.now }
        ensures line { slice_get self.now i ≡ Some (line_of result.now) }
        ensures writable { IsWritable (line_of result.now) }
    {
        &self.lines[i]
    }
}
