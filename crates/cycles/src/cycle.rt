//! The search for a cycle.
ghost use Rattle.std.specs.Prelude.{◌≡◌, ℕ, ◌<◌, ◌≤◌, ◌++◌, length, drop, take, slice_index_or, MatchOption, IfOk, IfSome};
ghost use Rattle.std.specs.List.{All};
ghost use Rattle.cycles.specs.Cycles.{AreBelow, IsAmong, IsCycleOf, HasNoCycle, BeginsWithSmallest};
ghost use Rattle.cycles.specs.Peeling.{IsLeft, NoneLeadsOn};

use crate::no_memory::NoMemory;
use crate::sinks::take_out_sinks;
use crate::walk::Walk;
use lab_plan::JobNo;
use std::alloc::Allocator;

/// A job that is left and from which a pair leads.
fn start_left(pairs: &[(JobNo, JobNo)], left: &[bool]) -> Option<JobNo>
    requires { AreBelow (length left.now) pairs.now }
    ensures { MatchOption result (NoneLeadsOn pairs.now left.now) (λ job. IsLeft left.now job) }
{
    for &(from, _) in pairs {
        if left[from.0 as usize] {
            return Some(from);
        }
    }
    None
}

/// The place of the smallest job.
fn smallest_place(jobs: &[JobNo]) -> usize
    requires { 0 < length jobs.now }
    ensures within { result < length jobs.now }
    ensures smallest { All (λ job. slice_index_or jobs.now result 0 ≤ job) jobs.now }
{
    let mut smallest = 0;
    for place in 0..jobs.len() {
        let (job, least) = (jobs[place], jobs[smallest]);
        if job.0 < least.0 {
            smallest = place;
        }
    }
    smallest
}

/// A cycle of the pairs that begins with its smallest job, or `None` exactly if there is none.
///
/// Each pair leads from its first job to its second, and both are below `jobs`. A pair of a job with
/// itself is a cycle of that job alone. Of several cycles any one is answered. Memory is taken in
/// proportion to `jobs`; time at most to its square, times the number of pairs. The error comes only
/// if an allocation fails.
pub fn cycle_in<A: Allocator + Copy>(
    alloc: A,
    jobs: usize,
    pairs: &[(JobNo, JobNo)],
) -> Result<Option<Vec<JobNo, A>>, NoMemory>
    requires { AreBelow jobs pairs.now }
    ensures cycle { IfOk result (λ answer. MatchOption answer (HasNoCycle (IsAmong pairs.now)) (λ cycle. IsCycleOf (IsAmong pairs.now) cycle.items)) }
    ensures smallest_first { IfOk result (λ answer. IfSome answer (λ cycle. BeginsWithSmallest cycle.items)) }
{
    let mut left = vec![in alloc; true; jobs]?;
    take_out_sinks(pairs, &mut left);
    let Some(start) = start_left(pairs, &left) else {
        return Ok(None);
    };
    let mut cycle = Walk::along(alloc, pairs, &left, start)?.into_cycle()?;
    cycle.rotate_left(smallest_place(&cycle));
    Ok(Some(cycle))
}
