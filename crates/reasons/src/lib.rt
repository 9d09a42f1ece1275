//! Laws alone: why a job waits. Where nothing moves, and nobody whose owner waits can drink, a chain of jobs leads from each thirsty
//! job to one that holds an instrument, or to one that could drink, but its owner doesn't wait. And until owners act there are few deeds.
#![tactic(auto)]

ghost use Rattle.reasons.specs.Laws.{ChainEndsAtAHolder, EachWaitHasAReason, HasFewDeeds, NobodyWaitsWhereNobodyHolds};

/// In every state that a legal list of events leads to from an opening state without a cycle of precedence, if it is quiet:
/// each thirsty job lacks a bottle that a neighbour keeps, and so on from job to job. All but the last are thirsty, and the last
/// drinks or reaches, or it lacks nothing, but its owner doesn't wait for its session.
pub fn each_wait_has_a_reason()
    ensures { EachWaitHasAReason }
{}

/// In every such state, if the owner of each thirsty job waits: the last job of that chain holds an instrument that the one
/// before it needs.
pub fn chain_ends_at_a_holder()
    ensures { ChainEndsAtAHolder }
{}

/// In every such state, if besides no job holds its instruments: no job is thirsty.
pub fn nobody_waits_where_nobody_holds()
    ensures { NobodyWaitsWhereNobodyHolds }
{}

/// Wherever a legal list of events leads from an opening state: as long as no session begins, goes on, ends or is given up, and
/// no job retires, there are at most four deeds for each job, nine for each edge and nine for each bottle, besides looks and glances.
pub fn few_deeds()
    ensures { HasFewDeeds }
{}
