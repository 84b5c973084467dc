//! What may be wrong with a record.

ghost use Rattle.std.specs.Prelude.{◌≡◌};
ghost use Rattle.pl_records.specs.FaultNames.{name_of};

/// The rule that a record of a data file breaks, or a line of a derivation; docs/FILES.md says of each file
/// which come, and how to fix them.
#[derive(Clone, Copy, Debug, PartialEq, Eq)]
pub enum DataFault {
    /// The first record is not the header of the file.
    BadHeader,
    /// The sessions file has no record.
    Empty,
    /// As many records as the file may have come before this one.
    TooMany,
    /// The record of a session is not one date.
    BadDate,
    /// The session is not later than the one before.
    NotAscending,
    /// There are too few or too many fields, or one has another form.
    BadField,
    /// The asset's start is later than its end.
    StartAfterEnd,
    /// An earlier asset has the sid.
    DuplicateSid,
    /// The label has more than 64 bytes.
    LabelTooLong,
    /// An earlier label has the name, the sid and the start.
    DuplicateStart,
    /// The date of the bar is no session.
    NotSession,
    /// No asset has the sid.
    UnknownSid,
    /// A value is below 0.
    Negative,
    /// The amount of a payout is not above 0.
    NotPositive,
    /// The revision is not known later than on the day of its bar.
    TooSoon,
    /// An earlier record is of the same bar, or of the same cell or number and known day.
    Duplicate,
    /// The line is none of a derivation's.
    BadLine,
}

impl DataFault {
    /// Its name, as users read it.
    pub fn name(self) -> &'static str
        ensures { result.now ≡ name_of self }
    {
        match self {
            DataFault::BadHeader => "BadHeader",
            DataFault::Empty => "Empty",
            DataFault::TooMany => "TooMany",
            DataFault::BadDate => "BadDate",
            DataFault::NotAscending => "NotAscending",
            DataFault::BadField => "BadField",
            DataFault::StartAfterEnd => "StartAfterEnd",
            DataFault::DuplicateSid => "DuplicateSid",
            DataFault::LabelTooLong => "LabelTooLong",
            DataFault::DuplicateStart => "DuplicateStart",
            DataFault::NotSession => "NotSession",
            DataFault::UnknownSid => "UnknownSid",
            DataFault::Negative => "Negative",
            DataFault::NotPositive => "NotPositive",
            DataFault::TooSoon => "TooSoon",
            DataFault::Duplicate => "Duplicate",
            DataFault::BadLine => "BadLine",
        }
    }
}
