//! The bottles of its edges that a job needs, as its desk keeps them.
ghost use Rattle.std.specs.Prelude.{◌≡◌, ◌<◌, ◌≤◌, length, true, false};
ghost use Rattle.lab_plan.specs.LabPlan.{edges, sessions};
ghost use Rattle.legal_steps.specs.State.{IsOwn, IsInSession};
ghost use Rattle.edge_rule.specs.NeededBottles.{AreNeeded, AreNeededIn, AreNeededNow, changes_session as changes_the_session};

use crate::desk::Desk;
use crate::words::number;
use lab_plan::{EdgeNo, JobNo, Plan};
use legal_steps::JobState;
use one_history::PhaseEvent;
use std::alloc::Allocator;

impl<A: Allocator> Desk<A> {
    /// The bottles of an own edge that the job needs now: those of its session, and none between sessions.
    pub fn needed(&self, edge: EdgeNo) -> u32
        requires { IsOwn self.now.plan self.now.job edge }
        ensures { AreNeededNow self.now edge result }
    {
        self.needed[number(edge)]
    }
}

/// Whether a session begins or ends. Only then does a job need other bottles.
fn changes_session(what: PhaseEvent) -> bool
    ensures { result ≡ changes_the_session what }
{
    matches!(
        what,
        PhaseEvent::Thirst | PhaseEvent::Quit | PhaseEvent::Withdraw
    )
}

/// The bottles of the edge that a job in this phase needs.
fn needed_in<A: Allocator>(plan: &Plan<A>, job: JobNo, phase: JobState, edge: EdgeNo) -> u32
    requires is_job { job < length plan.now.jobs }
    requires in_session { IsInSession phase.drinking → (1 ≤ phase.session) × (phase.session ≤ length (sessions plan.now job)) }
    requires edge { edge < length (edges plan.now) }
    ensures { AreNeededIn plan.now job phase edge result }
{
    if phase.is_in_session() {
        plan.needed_bottles(job, phase.session, edge)
    } else {
        0
    }
}

/// Sets for each own edge which bottles a job in this phase needs.
pub(crate) fn set_needed<A: Allocator>(
    plan: &Plan<A>,
    job: JobNo,
    phase: JobState,
    needed: &mut Vec<u32, A>,
)
    requires is_job { job < length plan.now.jobs }
    requires in_session { IsInSession phase.drinking → (1 ≤ phase.session) × (phase.session ≤ length (sessions plan.now job)) }
    requires wide { length needed.old.items ≡ length (edges plan.now) }
    ensures { AreNeeded plan.now job phase needed.new.items }
{
    let own = plan.edges_of(job);
    for edge in own {
        needed[number(*edge)] = needed_in(plan, job, phase, *edge);
    }
}

/// Sets the needed bottles anew if an event that led to this phase began or ended a session. They are asked for at every
/// visit, and change only here.
pub(crate) fn renew_needed<A: Allocator>(
    plan: &Plan<A>,
    job: JobNo,
    what: PhaseEvent,
    phase: JobState,
    needed: &mut Vec<u32, A>,
)
    requires is_job { job < length plan.now.jobs }
    requires changes { changes_the_session what ≡ true → IsInSession phase.drinking → (1 ≤ phase.session) × (phase.session ≤ length (sessions plan.now job)) }
    requires stays { changes_the_session what ≡ false → AreNeeded plan.now job phase needed.old.items }
    requires wide { length needed.old.items ≡ length (edges plan.now) }
    ensures { AreNeeded plan.now job phase needed.new.items }
{
    if changes_session(what) {
        set_needed(plan, job, phase, needed);
    }
}
