//! What follows from the definitions alone.
ghost use Rattle.script_reader.specs.Laws.{HasOnePlan, HasPlanOrFault, HasOneFault, HasOneList, HasListOrFault, HasOneStepFault};
ghost use Rattle.script_reader.specs.More.{SessionsAreGranted};

/// A text has at most one meaning: a plan or a fault, and one of it.
pub fn one_meaning()
    ensures plan { HasOnePlan }
    ensures either { HasPlanOrFault }
    ensures fault { HasOneFault }
{}

/// A text with steps has at most one meaning: a plan with a list of steps or a fault, and one of it.
pub fn one_meaning_with_steps()
    ensures list { HasOneList }
    ensures either { HasListOrFault }
    ensures fault { HasOneStepFault }
{}

/// The sessions that a text has for a job of a plan are taken by `Plan::add_session` one behind the other, as long as there is memory.
pub fn sessions_are_granted()
    ensures { SessionsAreGranted }
{}
