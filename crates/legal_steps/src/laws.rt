//! The laws of marks, instruments, things and precedence. Each is the contract of a function that does nothing.
ghost use Rattle.legal_steps.specs.Laws.{HasOneHolder, HasOnePlace, MarksAreTruthful, OpeningsAreChosen, StaysAcyclic, StaysWithinPlan, TheOpeningIsAcyclic};

/// After each beginning of a legal list of events, all numbers of the state are the plan's:
/// its lists are as long as the plan has edges, jobs and instruments, its sets name bottles of their edge alone,
/// and each job stands within its sessions and commands.
pub fn within_plan()
    ensures { StaysWithinPlan }
{}

/// After each beginning of a legal list of events, marks are truthful: a fork that is marked is at the job,
/// and dirty while the job eats, and a bottle that is marked is at the job.
#[tactic(auto, using(crate::proofs::ReachedLaws::marks_are_truthful))]
pub fn truthful_marks()
    ensures { MarksAreTruthful }
{}

/// After each beginning of a legal list of events, no two jobs hold one instrument.
#[tactic(auto, using(crate::proofs::ReachedLaws::has_one_holder))]
pub fn one_holder()
    ensures { HasOneHolder }
{}

/// After each beginning of a legal list of events, each fork, bottle and request token stands at exactly one
/// of its edge's two jobs.
pub fn one_place()
    ensures { HasOnePlace }
{}

/// After each beginning of a list of events that is legal from an opening state without a cycle of precedence,
/// precedence has no cycle (Chandy and Misra 1984).
#[tactic(auto, using(crate::proofs::ReachedLaws::stays_acyclic))]
pub fn no_cycle()
    ensures { StaysAcyclic }
{}

/// The initial state, with every fork and bottle at the lower job, is an opening state, and has no cycle of precedence:
/// on each edge the higher number precedes.
pub fn the_opening_is_acyclic()
    ensures { TheOpeningIsAcyclic }
{}

/// The opening states are those that a choice of ends gives, for each edge a fork's end and a set of its bottles.
pub fn openings_are_chosen()
    ensures { OpeningsAreChosen }
{}
