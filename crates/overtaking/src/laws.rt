//! The laws of waiting. Each is the contract of a function that does nothing.
ghost use Rattle.overtaking.specs.Laws.{IsOvertakenOnce, IsNeverStuck, QuietIsRetired};

pub use legal_steps::laws::no_cycle;

/// In every list of events that is legal from an opening state, at each request for a fork: before the job that asked
/// begins its next meal, or before the list ends, the job at the other end of the edge begins at most one meal.
pub fn overtaken_once()
    ensures { IsOvertakenOnce }
{}

/// In every state that a legal list of events leads to from an opening state without a cycle of precedence:
/// if no event but Withdraw changes anything, all jobs are retired. So no such state is stuck before its end.
pub fn never_stuck()
    ensures { IsNeverStuck }
{}

/// In every such state: if every mark is what a look would set, and no event but looks, glances and Withdraw
/// is legal, all jobs are retired.
pub fn quiet_is_retired()
    ensures { QuietIsRetired }
{}
