//! What a sessions file says, in plain words, and how weekdays are counted. The functions do nothing: their
//! contracts are the laws of the definitions that other contracts cite.

ghost use Rattle.std.specs.Prelude.{◌≡◌, ◌<◌, ◌↔◌, ℤ, List, length, Ok, Err};
ghost use Rattle.pl_records.specs.Reading.{Record, Fault, AreRows, Judges};
ghost use Rattle.pl_records.specs.RuleTable.{IsFirstBroken};
ghost use Rattle.pl_calendar.specs.Days.{rules, day_or_rule, sessions_of, DataFault};
ghost use Rattle.pl_spec.specs.Ages.{WeekdaysAreCounted};
ghost use Rattle.pl_calendar.specs.Rules.{IsSession, Breaks, IsSessionsFault};

/// A file is read as sessions exactly where each record is the date of its day, later than the day
/// before. It has a fault exactly where there is no record, or where that record breaks that rule
/// and no earlier one, and the records before it are sessions.
pub fn sessions_in_plain_words()
    ensures record { Judges IsSession (λ before r. IsFirstBroken rules (Breaks before r)) day_or_rule }
    ensures days { (records : List Record) (days : List ℤ) → (sessions_of records ≡ Ok days)
        ↔ ((0 < length days) × AreRows IsSession records days) }
    ensures fault { (records : List Record) (fault : Fault DataFault) → (sessions_of records ≡ Err fault)
        ↔ IsSessionsFault records fault }
{}

/// The number of days from Monday to Friday between two days is a difference of two numbers that rise by one on
/// each such day, and on no other.
pub fn weekdays_are_counted()
    ensures { WeekdaysAreCounted }
{}
