//! How many workers are worth their threads.
ghost use Rattle.std.specs.Prelude.{◌≤◌};

use crate::gate::Gate;
use lab_plan::{EdgeNo, JobNo, Plan};
use std::alloc::Allocator;

/// How many jobs there have to be for each edge that joins jobs of different workers, so that threads are started.
const JOBS_AN_EDGE: u32 = 4;

/// Which worker drives the job. Without workers it would be the first.
pub(crate) fn worker_of(job: JobNo, workers: u32) -> u32 {
    u32::from(job.0).checked_rem(workers).unwrap_or(0)
}

/// How many edges join jobs of different workers.
fn edges_between<A: Allocator>(plan: &Plan<A>, workers: u32) -> u32 {
    let mut between = 0u32;
    for number in 0..plan.edges() {
        let (lower, higher) = plan.ends(EdgeNo(number));
        if worker_of(lower, workers) != worker_of(higher, workers) {
            between = between.saturating_add(1);
        }
    }
    between
}

/// How many workers are to drive the desks of the plan, of this many at most. If no gate holds anybody up, and many jobs share an instrument
/// with a job of another worker, that is one: a turn takes less than handing over to another thread, and others are started in vain.
pub(crate) fn worth_starting<G: Gate, A: Allocator>(gate: &G, plan: &Plan<A>, workers: u32) -> u32
    requires { 1 ≤ workers }
    ensures some { 1 ≤ result }
    ensures most { result ≤ workers }
{
    let few = u32::try_from(plan.jobs()).unwrap_or(u32::MAX) / JOBS_AN_EDGE;
    if gate.holds_up() || edges_between(plan, workers) <= few {
        workers
    } else {
        1
    }
}
