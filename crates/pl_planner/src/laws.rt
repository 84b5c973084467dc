//! The laws of plans.
ghost use Rattle.pl_planner.specs.Laws.{BordersAreCovered, ConesAreCovered, ConesTellFollowers, ReadsAreCovered, SteadyPlansHoldMentions};

/// What a term's window, mask and group read is computed, and kept until it is read.
pub fn reads_are_covered()
    ensures { ReadsAreCovered }
{}

/// What is computed anew for a term's windows is of terms that are computed on these sessions, of which there
/// are at most 4,096 before the term's own.
pub fn cones_are_covered()
    ensures { ConesAreCovered }
{}

/// What a cone reads beside its terms is computed on these sessions, and kept until the term of the cone is.
pub fn borders_are_covered()
    ensures { BordersAreCovered }
{}

/// A plan has cones exactly where a window is over what moves.
pub fn cones_tell_followers()
    ensures { ConesTellFollowers }
{}

/// Where no window is over what moves, a term reads what it mentions alone, and at once is held what is
/// mentioned later.
pub fn steady_plans_hold_mentions()
    ensures { SteadyPlansHoldMentions }
{}
