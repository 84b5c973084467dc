//! Laws of fed days. The functions do nothing: the contract of each is a law.
ghost use Rattle.pl_daily.specs.RingLaws.{BarRingsMove, DaysAreFed, FedAgrees, FedIsAWorld};

/// Days that were fed, each as it may be fed after those before it, make a world.
pub fn fed_is_a_world()
    ensures { FedIsAWorld }
{}

/// Its sessions are the days.
pub fn days_are_fed()
    ensures { DaysAreFed }
{}

/// One more day changes nothing that was known.
pub fn fed_agrees()
    ensures { FedAgrees }
{}

/// What a day does to the cells of a bar column, and what windows they have.
pub fn bar_rings_move()
    ensures { BarRingsMove }
{}
