//! What holds of the steps of a run. Each law is the contract of a function that does nothing.
ghost use Rattle.round_trace.specs.StepsOf.{StepsGiveEvents, StepsAreOfPlan};

/// The steps of legal events have exactly these events, if they are taken one after another from where the events began.
pub fn steps_give_events()
    ensures { StepsGiveEvents }
{}

/// The steps of legal events name jobs and edges of the plan.
pub fn steps_are_of_plan()
    ensures { StepsAreOfPlan }
{}
