//! What a run by rounds is measured by.
ghost use Rattle.std.specs.Prelude.{◌≡◌, ◌≤◌, length, IfOk};
ghost use Rattle.lab_plan.specs.Limits.{most_jobs};
ghost use Rattle.measured_orders.specs.Measures.{IsMeasureOf, is_better, takes_less, waited_in_all};

use lab_plan::{JobNo, Plan};
use std::alloc::{AllocError, Allocator};
use waiting::{RoundsRun, run_by_rounds, total_wait};

/// Whether a run ended, how many rounds it took, and how many its sessions waited, all together.
#[derive(Clone, Copy, PartialEq, Eq, Debug)]
pub struct Measure {
    pub finished: bool,
    pub rounds: u32,
    pub waited: u128,
}

/// Whether fewer rounds were taken, or as many with less waiting.
fn takes_less(a: Measure, b: Measure) -> bool
    ensures { result ≡ takes_less a b }
{
    if a.rounds == b.rounds {
        return a.waited < b.waited;
    }
    a.rounds < b.rounds
}

/// Whether the first is better: it ended and the other didn't; or both did, or neither, and it took fewer rounds, or as many with less
/// waiting.
pub fn is_better(a: Measure, b: Measure) -> bool
    ensures { result ≡ is_better a b }
{
    match (a.finished, b.finished) {
        (true, false) => true,
        (false, true) => false,
        _ => takes_less(a, b),
    }
}

/// How many rounds the sessions of so many jobs waited, all together.
fn waited_in_all<A: Allocator>(run: &RoundsRun<A>, jobs: usize) -> u128
    requires few { jobs ≤ most_jobs }
    requires all { jobs ≡ length run.now.jobs }
    ensures { result ≡ waited_in_all run.now }
{
    let mut waited = 0;
    for job in 0..jobs {
        waited += total_wait(run.rounds(), run.sessions(JobNo(job as u8)));
    }
    waited
}

/// What the run of a plan by at most so many rounds is measured by.
pub fn measured<A: Allocator + Copy>(
    alloc: A,
    plan: &Plan<A>,
    limit: u32,
) -> Result<Measure, AllocError>
    ensures { IfOk result (IsMeasureOf plan.now limit) }
{
    let run = run_by_rounds(alloc, plan, limit)?;
    let waited = waited_in_all(&run, plan.jobs());
    Ok(Measure {
        finished: run.retired(),
        rounds: run.rounds(),
        waited,
    })
}
