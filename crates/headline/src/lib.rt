//! Laws alone: what is promised of a run, in one place: all that holds of every list of events that is legal from the initial state.
#![tactic(auto)]

ghost use Rattle.headline.specs.Headline.{HoldsOfEveryRun};

use legal_steps::laws::{no_cycle, one_holder, the_opening_is_acyclic};
use legal_steps::log_laws::{dial_values, ended_sessions_there, ends_in_order, whole_logs};
use overtaking::laws::overtaken_once;

/// Of every list of events that is legal from the initial state of a plan: after each of its beginnings the logs are
/// whole except for their ends, with every ended session there, their values follow the dial, no two jobs hold one
/// instrument, and precedence has no cycle; and between a job's request for a neighbour's fork and its next meal
/// that neighbour begins at most one meal. The function does nothing: this is its contract.
pub fn holds_of_every_run()
    ensures { HoldsOfEveryRun }
{
    the_opening_is_acyclic();
    whole_logs();
    ended_sessions_there();
    ends_in_order();
    dial_values();
    one_holder();
    no_cycle();
    overtaken_once();
}
