//! Room for the events of a call.
ghost use Rattle.std.specs.Prelude.{◌≡◌, ◌≤◌, ◌<◌, ◌*◌, length};
ghost use Rattle.lab_plan.specs.LabPlan.{edges, sessions};
ghost use Rattle.lab_journal.specs.Rooms.{bottles_below, longest_of, longest_below, steps_between, room_for};

use lab_plan::{EdgeNo, JobNo, MOST_COMMANDS, Plan};
use std::alloc::Allocator;

/// All bottles of all edges.
fn all_bottles<A: Allocator>(plan: &Plan<A>) -> usize
    ensures all { result ≡ bottles_below plan.now (length (edges plan.now)) }
    ensures few { result ≤ 28 * length (edges plan.now) }
{
    let mut sum = 0usize;
    for edge in 0..plan.edges() {
        sum += plan.bottles(EdgeNo(edge)) as usize;
    }
    sum
}

/// The commands of the job's longest session.
fn longest_of<A: Allocator>(plan: &Plan<A>, job: JobNo) -> usize
    requires { job < length plan.now.jobs }
    ensures { result ≡ longest_of plan.now job (length (sessions plan.now job)) }
{
    let mut longest = 0usize;
    for session in 0..plan.sessions(job) {
        longest = longest.max(plan.commands(job, session + 1).len());
    }
    longest
}

/// The commands of the longest session.
fn longest_session<A: Allocator>(plan: &Plan<A>) -> usize
    ensures { result ≡ longest_below plan.now (length plan.now.jobs) }
{
    let mut longest = 0usize;
    for job in 0..plan.jobs() {
        longest = longest.max(longest_of(plan, JobNo(job as u8)));
    }
    longest
}

/// How many steps there are between two words of owners, as far as is known: at most 4 deeds a job, and 9 an edge and a bottle, and a look that
/// changes marks before each; and at an edge 10 looks more, since each of its two jobs looks at it anew after its owner's word and each of its own 4 deeds.
fn steps_between<A: Allocator>(plan: &Plan<A>) -> usize
    ensures steps { result ≡ steps_between plan.now }
    ensures few { result ≤ 264128 }
{
    plan.jobs() * 8 + plan.edges() as usize * 28 + all_bottles(plan) * 18
}

/// Room for the events of two calls. A call has the room of five times between two words of owners, and of a session's commands, each of which is two
/// events: before those who ask, when they are let in, once more if they are so one after another, and the same again when some have given up. That a
/// call never has more isn't proved: an event that finds no room is missed, and no journal is taken any more.
pub(crate) fn room_of<A: Allocator>(plan: &Plan<A>) -> usize
    ensures room { result ≡ room_for plan.now 0 }
    ensures some { 64 ≤ result }
{
    room_with(plan, 0)
}

/// The same, with sessions of at most so many commands besides. No session has more than a plan may have.
pub(crate) fn room_with<A: Allocator>(plan: &Plan<A>, further: usize) -> usize
    ensures room { result ≡ room_for plan.now further }
    ensures some { 64 ≤ result }
{
    let commands = longest_session(plan)
        .max(further)
        .min(MOST_COMMANDS as usize);
    (steps_between(plan) * 5 + commands * 2) * 2 + 64
}
