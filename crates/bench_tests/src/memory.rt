//! Memory that is refused when a bench is opened or closed, each allocation in turn.
use crate::closes::{BOTH_DRANK, BOTH_DRINK, closes};
use crate::labs::{THREE, TWO, plan_of};
use edge_rule::{Bench, OpenError};
use lab_plan::Plan;
use refusing_heap::RefusingHeap;
use std::alloc::{Allocator, Global};
use std::process::Abort;

/// Whether there is memory for the bench; if so, each job has its desk.
fn opens<T: Allocator + Copy>(rt: &impl Abort, small: T, plan: &Plan<T>) -> bool {
    match Bench::open(small, plan) {
        Ok((bench, desks)) => {
            assert!(rt; bench.plan().jobs() == 3 && bench.has_all(desks.as_slice()));
            assert!(rt; !bench.has_all(&desks[..2]));
            true
        }
        Err(OpenError::NoMemory) => false,
    }
}

/// Whether a bench is opened on a heap that refuses this allocation, and how many allocations it asked for.
fn opens_without(rt: &impl Abort, alloc: Global, refused: u64) -> (bool, u64) {
    let ample = RefusingHeap::new(alloc, 0);
    let heap = RefusingHeap::new(alloc, refused);
    let plan = plan_of(rt, &ample, THREE);
    (opens(rt, &heap, &plan), heap.allocations())
}

#[test]
fn allocations_of_an_opening(rt: HostRuntime) {
    let (is_open, all) = opens_without(&rt, rt.alloc(), 0);
    assert!(rt; is_open && all > 0);
    for number in 0..all {
        let (is_open, _) = opens_without(&rt, rt.alloc(), number + 1);
        assert!(rt; !is_open, "allocation {number}");
    }
}

/// Whether a bench is closed on a heap that refuses this allocation, and how many allocations it asked for. A second close, with memory, leaves
/// what the first would have left.
fn closes_without(rt: &impl Abort, alloc: Global, refused: u64) -> (bool, u64) {
    let ample = RefusingHeap::new(alloc, 0);
    let heap = RefusingHeap::new(alloc, refused);
    let is_closed = closes(rt, &ample, &heap, TWO, &BOTH_DRINK, &BOTH_DRANK);
    (is_closed, heap.allocations())
}

#[test]
fn allocations_of_a_close(rt: HostRuntime) {
    let (is_closed, all) = closes_without(&rt, rt.alloc(), 0);
    assert!(rt; is_closed && all > 0);
    for number in 0..all {
        let (is_closed, _) = closes_without(&rt, rt.alloc(), number + 1);
        assert!(rt; !is_closed, "allocation {number}");
    }
}
