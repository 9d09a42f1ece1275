//! A plan that is longer: sessions are added at the end of one job's. What was legal stays legal, and leads to the same state.
#![tactic(auto)]

ghost use Rattle.longer_plans.specs.Longer.{StaysLegal, IsAsLegal, StillFits, StaysAnOpening, StaysAcyclic, OpensTheSame};
ghost use Rattle.longer_plans.specs.OneMore.{IsLongerByOne, TakenIsLonger, NeedsMoreRoom};

/// Every legal list of events stays legal if its plan gets longer, unless the job that gets the sessions has retired in it: nothing
/// that an event reads of the plan changes, but that there are sessions left, which only a retirement asks to be otherwise.
pub fn stays_legal()
    ensures { StaysLegal }
{}

/// Only a beginning and a retirement of the job that gets the sessions are told apart by the two plans. So of what a job may do of itself nothing changes:
/// its moves, its meals, and whether it drinks.
pub fn is_as_legal()
    ensures { IsAsLegal }
{}

/// Every state that fits a plan fits a longer one.
pub fn still_fits()
    ensures { StillFits }
{}

/// Every opening of a plan is one of a longer plan.
pub fn stays_an_opening()
    ensures { StaysAnOpening }
{}

/// Precedence among jobs is the same by a longer plan, so it has no cycle if it had none.
pub fn stays_acyclic()
    ensures { StaysAcyclic }
{}

/// The initial state of a longer plan is the plan's own.
pub fn opens_the_same()
    ensures { OpensTheSame }
{}

/// A plan with one more session at the end of a job's, of instruments that the job names already, is a longer one in that sense.
pub fn longer_by_one()
    ensures { IsLongerByOne }
{}

/// So it is with every session that a plan takes: of no other instrument than the job's own.
pub fn taken_is_longer()
    ensures { TakenIsLonger }
{}

/// The room of each log grows by the session's commands on its instrument, and by nothing else.
pub fn needs_more_room()
    ensures { NeedsMoreRoom }
{}
