//! The law of the text of a plan.
ghost use Rattle.pl_planner.specs.TextLaws.{PlanTextsAreExact};

/// What the text of a plan says is what the definitions say of the pipeline.
pub fn plans_are_told()
    ensures { PlanTextsAreExact }
{}
