//! The laws of rounds.
ghost use Rattle.rounds.specs.FromOpening.{DrivesFromOpening, NeverEndsQuiet, OneRunOfAPlan};
ghost use Rattle.rounds.specs.FromRest.{NeverQuietFromRest};
ghost use Rattle.rounds.specs.OneRun.{OneRun};
ghost use Rattle.rounds.specs.QuietEnd.{NoQuietEnd, NoQuietEndFromRest};

/// Rounds don't end because nothing is left to do, wherever they began with no job reaching for a log: if the last round was
/// idle and both ends of every edge know the same of it, all jobs are retired.
pub fn no_quiet_end_from_rest()
    ensures { NoQuietEndFromRest }
{}

/// Rounds from the initial state don't end because nothing is left to do: if the last round was idle and both ends of every
/// edge know the same of it, all jobs are retired.
pub fn no_quiet_end()
    ensures { NoQuietEnd }
{}

/// Rounds follow from the plan, the limit and where they began: two that begin alike end for the same reason, after as
/// many rounds, with the same history.
pub fn one_run()
    ensures { OneRun }
{}

/// What `rounds` drives after `open` is rounds of all jobs from the initial state.
pub fn drives_from_opening()
    ensures { DrivesFromOpening }
{}

/// After `open`, `rounds` never ends because it is quiet.
pub fn never_ends_quiet()
    ensures { NeverEndsQuiet }
{}

/// After `open`, `rounds` has one outcome for a plan and a limit: one reason, one number of rounds and one history.
pub fn one_run_of_a_plan()
    ensures { OneRunOfAPlan }
{}

/// `rounds` never ends because it is quiet, whatever the desks did before: `are_at_rest` of `rounds` says of them what the law asks.
pub fn never_quiet_from_rest()
    ensures { NeverQuietFromRest }
{}
