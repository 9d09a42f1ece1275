//! Cycles and rankings of pairs of jobs, worked out by hand, and memory that is refused.
ghost use Rattle.std.specs.List.{All};
ghost use Rattle.cycles.specs.Cycles.{AreBelow};

use crate::heaps::heap_of;
use crate::rows::check;
use cycles::{NoMemory, cycle_in, ranking};
use lab_plan::JobNo;
use std::alloc::{Allocator, Global};
use std::process::Abort;

const TRIANGLE: [(JobNo, JobNo); 3] = [
    (JobNo(0), JobNo(1)),
    (JobNo(1), JobNo(2)),
    (JobNo(2), JobNo(0)),
];

const IN_ORDER: [JobNo; 3] = [JobNo(0), JobNo(1), JobNo(2)];

/// Sees that the pairs are of jobs below `jobs`.
fn see_below(rt: &impl Abort, jobs: usize, pairs: &[(JobNo, JobNo)])
    ensures { AreBelow jobs pairs.now }
{
    for &(from, to) in pairs {
        assert!(rt; (from.0 as usize) < jobs);
        assert!(rt; (to.0 as usize) < jobs);
    }
}

/// Whether the cycle that is found is this one; none if it is of no job.
fn has_cycle<A: Allocator + Copy>(
    rt: &impl Abort,
    alloc: A,
    jobs: usize,
    pairs: &[(JobNo, JobNo)],
    wanted: &[JobNo],
) -> Result<bool, NoMemory> {
    see_below(rt, jobs, pairs);
    match cycle_in(alloc, jobs, pairs)? {
        Some(cycle) => Ok(cycle.as_slice() == wanted),
        None => Ok(wanted.is_empty()),
    }
}

/// Whether there is no cycle, and the ranking is this one.
fn has_ranking<A: Allocator + Copy>(
    rt: &impl Abort,
    alloc: A,
    jobs: usize,
    pairs: &[(JobNo, JobNo)],
    wanted: &[JobNo],
) -> Result<bool, NoMemory> {
    assert!(rt; jobs <= 256);
    see_below(rt, jobs, pairs);
    match cycle_in(alloc, jobs, pairs)? {
        None => {
            let order = ranking(alloc, jobs, pairs)?;
            Ok(order.as_slice() == wanted)
        }
        Some(_) => Ok(false),
    }
}

/// Whether there is memory for it; if so, the answer is right.
fn is_answered(rt: &impl Abort, answer: Result<bool, NoMemory>, wanted: &[JobNo]) -> bool {
    match answer {
        Ok(right) => {
            check(rt, wanted, right, true);
            true
        }
        Err(NoMemory) => false,
    }
}

/// The cycle of these pairs has to be this one.
fn check_cycle<A: Allocator + Copy>(
    rt: &impl Abort,
    alloc: A,
    jobs: usize,
    pairs: &[(JobNo, JobNo)],
    wanted: &[JobNo],
) {
    let answer = has_cycle(rt, alloc, jobs, pairs, wanted);
    check(rt, (jobs, pairs), is_answered(rt, answer, wanted), true);
}

/// A cycle of three with a job before it and one behind it.
const APART: [(JobNo, JobNo); 5] = [
    (JobNo(0), JobNo(3)),
    (JobNo(3), JobNo(1)),
    (JobNo(1), JobNo(2)),
    (JobNo(2), JobNo(3)),
    (JobNo(1), JobNo(4)),
];

const TWO: [(JobNo, JobNo); 2] = [(JobNo(2), JobNo(1)), (JobNo(1), JobNo(2))];

const LOOP: [(JobNo, JobNo); 1] = [(JobNo(1), JobNo(1))];

#[test]
fn finds_the_only_cycle(rt: HostRuntime) {
    let alloc = rt.alloc();
    check_cycle(&rt, alloc, 3, &TRIANGLE, &IN_ORDER);
    check_cycle(&rt, alloc, 3, &TWO, &[JobNo(1), JobNo(2)]);
    check_cycle(&rt, alloc, 5, &APART, &[JobNo(1), JobNo(2), JobNo(3)]);
    check_cycle(&rt, alloc, 2, &LOOP, &[JobNo(1)]);
}

const CHAIN: [(JobNo, JobNo); 3] = [
    (JobNo(0), JobNo(1)),
    (JobNo(1), JobNo(2)),
    (JobNo(0), JobNo(2)),
];

#[test]
fn finds_no_cycle(rt: HostRuntime) {
    let alloc = rt.alloc();
    check_cycle(&rt, alloc, 0, &[], &[]);
    check_cycle(&rt, alloc, 3, &[], &[]);
    check_cycle(&rt, alloc, 3, &CHAIN, &[]);
    check_cycle(&rt, alloc, 300, &TRIANGLE[..2], &[]);
}

const ZERO_LAST: [(JobNo, JobNo); 3] = [
    (JobNo(1), JobNo(0)),
    (JobNo(2), JobNo(0)),
    (JobNo(1), JobNo(2)),
];

/// The ranking along these pairs has to be this one.
fn check_ranking<A: Allocator + Copy>(
    rt: &impl Abort,
    alloc: A,
    pairs: &[(JobNo, JobNo)],
    wanted: &[JobNo],
) {
    let answer = has_ranking(rt, alloc, wanted.len(), pairs, wanted);
    check(rt, pairs, is_answered(rt, answer, wanted), true);
}

#[test]
fn ranks_along_the_pairs(rt: HostRuntime) {
    let alloc = rt.alloc();
    check_ranking(&rt, alloc, &CHAIN, &IN_ORDER);
    check_ranking(&rt, alloc, &ZERO_LAST, &[JobNo(1), JobNo(2), JobNo(0)]);
    check_ranking(&rt, alloc, &[], &[]);
}

/// Whether a heap of this size has memory for the cycle of three.
fn has_memory_for_a_cycle(rt: &impl Abort, alloc: Global, size: usize) -> bool {
    let heap = heap_of(rt, alloc, size);
    let answer = has_cycle(rt, &heap, 3, &TRIANGLE, &IN_ORDER);
    is_answered(rt, answer, &IN_ORDER)
}

/// Whether it has memory for the ranking of three.
fn has_memory_for_a_ranking(rt: &impl Abort, alloc: Global, size: usize) -> bool {
    let heap = heap_of(rt, alloc, size);
    let answer = has_ranking(rt, &heap, 3, &TRIANGLE[..2], &IN_ORDER);
    is_answered(rt, answer, &IN_ORDER)
}

/// Each allocation is refused in turn, by a heap that is a little larger in each run.
#[test]
fn refuses_allocation_of_a_cycle(rt: HostRuntime) {
    let mut answers = 0u32;
    for budget in 1..40usize {
        let answered = has_memory_for_a_cycle(&rt, rt.alloc(), 16 * budget);
        answers = answers.saturating_add(answered as u32);
    }
    assert!(rt; answers > 1 && answers < 39);
}

#[test]
fn refuses_allocation_of_a_ranking(rt: HostRuntime) {
    let mut answers = 0u32;
    for budget in 1..40usize {
        let answered = has_memory_for_a_ranking(&rt, rt.alloc(), 16 * budget);
        answers = answers.saturating_add(answered as u32);
    }
    assert!(rt; answers > 1 && answers < 39);
}
