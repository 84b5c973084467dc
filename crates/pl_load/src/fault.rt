//! Why a command ends without its whole text.

ghost use Rattle.std.specs.Prelude.{◌≡◌};
ghost use Rattle.pl_load.specs.Faults.{status_of, syntax_text, rule_text, row_text, limit_text};

use pl_outside::Table;
use pl_records::DataFault;
use pl_syntax::Place;
use pl_words::{InputFile, RangeDate};

/// The limit that a count passes; docs/COMMANDS.md has their sizes.
#[derive(Clone, Copy, Debug, PartialEq, Eq)]
pub enum Limit {
    /// The bytes of the pipeline file.
    Pipeline,
    /// The terms of a pipeline.
    Terms,
    /// The columns of a pipeline.
    Columns,
    /// The bytes of a data file.
    File,
    Sessions,
    Assets,
    Labels,
    Numbers,
    Bars,
    Adjustments,
    Revisions,
    Payouts,
    /// The lines of a derivation.
    Derivation,
    /// The extra rows of a term.
    Extra,
}

/// The fault of the syntax of a pipeline file; `SyntaxError` of pl_syntax says where each comes.
#[derive(Clone, Copy, Debug, PartialEq, Eq)]
pub enum SyntaxFault {
    BadByte,
    Unexpected,
    TooDeep,
    NumberTooLarge,
    LongStatement,
}

/// The rule that the script of a pipeline file breaks; `CheckFault` of pl_check says where each but the last
/// comes.
#[derive(Clone, Copy, Debug, PartialEq, Eq)]
pub enum RuleFault {
    UnknownName,
    Redefined,
    WrongKind,
    BadArgument,
    BadWindow,
    NotWindowSafe,
    NoColumn,
    /// A number is mentioned, first at this place, and no numbers file is named.
    NoNumbers,
}

/// The rule that a row of a table of adjustments breaks.
#[derive(Clone, Copy, Debug, PartialEq, Eq)]
pub enum RowFault {
    /// Its day is not of the years 1900 to 2199.
    BadEffective,
    /// A part of its ratio is not from 1 to 10^9.
    BadRatio,
}

/// Why a command ends without its whole text.
#[derive(Clone, Copy, Debug)]
pub enum Fault {
    /// The words have none of the commands' forms.
    Usage,
    /// The pipeline file has this fault of syntax at this place.
    Syntax {
        place: Place,
        fault: SyntaxFault,
    },
    /// The script of the pipeline file breaks this rule at this place.
    Rule {
        place: Place,
        fault: RuleFault,
    },
    /// The record of this number breaks a rule of its file. Records count from 1, the header too; empty lines
    /// are no records. In a derivation it is the number of the line.
    Data {
        file: InputFile,
        line: u32,
        fault: DataFault,
    },
    /// The row of this id breaks a rule of the tables of adjustments.
    Row {
        table: Table,
        id: i64,
        fault: RowFault,
    },
    /// The date is no session.
    NotSession(RangeDate),
    /// No asset has the sid of the cell.
    UnknownSid {
        sid: u32,
    },
    /// The pipeline has no column of the name.
    UnknownColumn,
    /// The first date is after the second, or the second after the one as of which rows are asked for.
    Backwards,
    /// The columns or the screen, or the cell, need a session before the first one: the least has this
    /// number, below 0, where the first one is 0.
    TooEarly {
        reach: i64,
    },
    /// There is more than a limit allows.
    Passed(Limit),
    /// The shelf counted a fault as the file was read.
    Unread(InputFile),
    /// The keeper counted a fault as the rows of the table were loaded.
    Unloaded(Table),
    /// The sink counted a fault as the text was written; a prefix of it was.
    Unwritten,
    /// Memory ran out.
    Memory,
}

impl Fault {
    /// The status with which the program ends, from 2 to 10.
    pub fn status(self) -> u8
        ensures { result ≡ status_of self }
    {
        match self {
            Fault::Usage => 2,
            Fault::Syntax { .. } | Fault::Rule { .. } => 3,
            Fault::Data { .. } | Fault::Row { .. } => 4,
            Fault::NotSession(_)
            | Fault::UnknownSid { .. }
            | Fault::UnknownColumn
            | Fault::Backwards
            | Fault::TooEarly { .. } => 5,
            Fault::Passed(_) => 6,
            Fault::Unread(_) => 7,
            Fault::Unloaded(_) => 8,
            Fault::Unwritten => 9,
            Fault::Memory => 10,
        }
    }
}

impl SyntaxFault {
    /// Its name in the line of the fault.
    pub fn name(self) -> &'static str
        ensures { result.now ≡ syntax_text self }
    {
        match self {
            SyntaxFault::BadByte => "BadByte",
            SyntaxFault::Unexpected => "Unexpected",
            SyntaxFault::TooDeep => "TooDeep",
            SyntaxFault::NumberTooLarge => "NumberTooLarge",
            SyntaxFault::LongStatement => "LongStatement",
        }
    }
}

impl RuleFault {
    /// Its name in the line of the fault.
    pub fn name(self) -> &'static str
        ensures { result.now ≡ rule_text self }
    {
        match self {
            RuleFault::UnknownName => "UnknownName",
            RuleFault::Redefined => "Redefined",
            RuleFault::WrongKind => "WrongKind",
            RuleFault::BadArgument => "BadArgument",
            RuleFault::BadWindow => "BadWindow",
            RuleFault::NotWindowSafe => "NotWindowSafe",
            RuleFault::NoColumn => "NoColumn",
            RuleFault::NoNumbers => "NoNumbers",
        }
    }
}

impl RowFault {
    /// Its name in the line of the fault.
    pub fn name(self) -> &'static str
        ensures { result.now ≡ row_text self }
    {
        match self {
            RowFault::BadEffective => "BadEffective",
            RowFault::BadRatio => "BadRatio",
        }
    }
}

impl Limit {
    /// Its name in the line of the fault.
    pub fn name(self) -> &'static str
        ensures { result.now ≡ limit_text self }
    {
        match self {
            Limit::Pipeline => "pipeline",
            Limit::Terms => "terms",
            Limit::Columns => "columns",
            Limit::File => "file",
            Limit::Sessions => "sessions",
            Limit::Assets => "assets",
            Limit::Labels => "labels",
            Limit::Numbers => "numbers",
            Limit::Bars => "bars",
            Limit::Adjustments => "adjustments",
            Limit::Revisions => "revisions",
            Limit::Payouts => "payouts",
            Limit::Derivation => "derivation",
            Limit::Extra => "extra",
        }
    }
}
