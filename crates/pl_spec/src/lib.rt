//! What a world is: the definitions of numbers, days, sessions, assets, bars, labels, adjustments and windows,
//! on which every contract of the project rests. What pipelines mean in a world is the crate `pl_pipeline`.
//!
//! The definitions are in `specs/`; docs/DEFINITIONS.md has their heart. The types here are those that both
//! the definitions and the code speak of; the crates that they belong to export them. The laws of the
//! definitions are the crate `pl_laws`.
#![tactic(auto)]

/// A column of daily bars. Prices are millionths of a unit of money, volumes millionths of a share.
#[derive(Clone, Copy, Debug, PartialEq, Eq)]
pub enum Column {
    OpenPrice,
    High,
    Low,
    Close,
    Volume,
}

/// What an adjustment comes from. Splits, mergers and dividends are Zipline's tables; revisions are this
/// project's own.
#[derive(Clone, Copy, Debug, PartialEq, Eq)]
pub enum AdjustmentKind {
    Split,
    Merger,
    Dividend,
    Revision,
}

/// How two numbers are compared. A comparison with a missing side is false, `NotEqual` too, which is this
/// project's rule.
#[derive(Clone, Copy, Debug, PartialEq, Eq)]
pub enum Compare {
    Less,
    LessEqual,
    Greater,
    GreaterEqual,
    Equal,
    NotEqual,
}

/// At which sessions a downsampled term takes its input's value: the first of each year, quarter, month or
/// week. Weeks begin on Monday, quarters with January, April, July and October.
#[derive(Clone, Copy, Debug, PartialEq, Eq)]
pub enum Frequency {
    YearStart,
    QuarterStart,
    MonthStart,
    WeekStart,
}

/// What is read of the newest record of a number: its value, or how old it is, in days or in days from Monday to
/// Friday.
#[derive(Clone, Copy, Debug, PartialEq, Eq)]
pub enum Figure {
    Value,
    Days,
    BusinessDays,
}

/// The form of a table: fields with commas between them; columns of one width with a space between them, the
/// date in 10 bytes, the sid in 10, each value in 20, where a longer text stays whole; or numbers as a machine
/// has them, low bytes first, with nothing between them: the day in 4 bytes, the sid in 4, a factor's cell in
/// 8, a filter's value in 1, a bin in 8, a label's text in 64.
#[derive(Clone, Copy, Debug, PartialEq, Eq)]
pub enum Format {
    Csv,
    Fixed,
    Cells,
}

/// An asset, which exists on each session whose day is later than `start` and at most `end`, as in Zipline.
/// Days are counted from 1970-01-01.
#[derive(Clone, Copy, Debug, PartialEq, Eq)]
pub struct AssetRow {
    pub sid: u32,
    pub start: i32,
    pub end: i32,
}

/// The bar of the asset in a column on a session: open, high, low, close and volume, in millionths, each
/// `MISSING` where it has none. Columns and sessions are counted from 0.
#[derive(Clone, Copy, Debug, PartialEq, Eq)]
pub struct BarRow {
    pub col: u32,
    pub session: u32,
    pub cells: [i64; 5],
}

/// A row of a table of splits, mergers or dividends, which are Zipline's; the ratio in two whole numbers is
/// this project's own. `effective` is in seconds since 1970-01-01 UTC: from that day on earlier bars are seen
/// times `num / den`. The numbers are as in the table, right or not.
#[derive(Clone, Copy, Debug, PartialEq, Eq)]
pub struct RawAdjust {
    pub id: i64,
    pub effective: i64,
    pub num: i64,
    pub den: i64,
    pub sid: i64,
}
