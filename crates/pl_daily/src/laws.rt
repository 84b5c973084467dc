//! Laws of days and sessions. The functions do nothing: the contract of each is a law.
ghost use Rattle.pl_daily.specs.TermDays.{FedDaysAreSessions};
ghost use Rattle.pl_daily.specs.Laws.{ValuesStay};

/// The last of days that were fed is a session of their world.
pub fn fed_days_are_sessions()
    ensures { FedDaysAreSessions }
{}

/// One more day changes no value of an earlier session.
pub fn values_stay()
    ensures { ValuesStay }
{}
