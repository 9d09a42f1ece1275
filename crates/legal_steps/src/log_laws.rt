//! The laws of logs, their room, and counts. Each is the contract of a function that does nothing.
ghost use Rattle.legal_steps.specs.LogLaws.{CountsSessions, EndsInOrder, FitsItsRoom, HasEndedSessions, HasFewMeals};
ghost use Rattle.legal_steps.specs.LogLaws.{HasFewSessions, HasNothingElse, HasValuesOfDials, HasWholeLogs, TakesNextEntry};

/// After each beginning of a legal list of events, every log is whole except for its end: nonempty parts of
/// the plan's sessions one after another, those of each job ascending, and then at most one unfinished part.
#[tactic(auto, using(crate::proofs::LogLawProofs::has_whole_logs))]
pub fn whole_logs()
    ensures { HasWholeLogs }
{}

/// After each beginning of a legal list of events, each entry has the value that its command turned the dial to.
#[tactic(auto, using(crate::proofs::LogLawProofs::has_values_of_dials))]
pub fn dial_values()
    ensures { HasValuesOfDials }
{}

/// The sessions that ended are the plan's, and those of each job end in ascending order.
pub fn ends_in_order()
    ensures { EndsInOrder }
{}

/// After each beginning of a legal list of events, the sessions that ended stand whole at the start of every log,
/// in the order of their ends.
#[tactic(auto, using(crate::proofs::LogLawProofs::has_ended_sessions))]
pub fn ended_sessions_there()
    ensures { HasEndedSessions }
{}

/// If no job holds an instrument, its log is the parts of the sessions that ended, and nothing else.
#[tactic(auto, using(crate::proofs::LogLawProofs::has_nothing_else))]
pub fn nothing_else_at_rest()
    ensures { HasNothingElse }
{}

/// A log never outgrows its room: the number of the plan's commands on its instrument.
#[tactic(auto, using(crate::proofs::LogLawProofs::fits_its_room))]
pub fn room_enough()
    ensures { FitsItsRoom }
{}

/// An Act is never refused by a log: the entry of a reaching job is within the limits, follows in the log of its
/// command's instrument, and finds room there.
pub fn act_finds_room()
    ensures { TakesNextEntry }
{}

/// No job begins more sessions than a job may have.
#[tactic(auto, using(crate::proofs::LogLawProofs::has_few_sessions))]
pub fn few_sessions()
    ensures { HasFewSessions }
{}

/// A job begins at most one meal for each session that it began.
#[tactic(auto, using(crate::proofs::LogLawProofs::has_few_meals))]
pub fn few_meals()
    ensures { HasFewMeals }
{}

/// Each session that a job began has ended, was given up, or is the one that the job is in.
#[tactic(auto, using(crate::proofs::LogLawProofs::counts_sessions))]
pub fn sessions_counted()
    ensures { CountsSessions }
{}
