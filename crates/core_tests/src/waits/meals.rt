//! Meals and rankings.
use super::{ALL_LOWER, FORKS_HIGHER, Question, ask, go_on, owns, take};
use crate::benches::{
    A, AB, B, BEFORE_THE_MEAL, C, Do, MEAL_OF_THREE, STALE_MARK, THREE, TWICE, event_of, stage,
    step_of,
};
use crate::rows::check;
use interleaving::{Event, World};
use lab_plan::{EdgeNo, JobNo};
use linked_list_allocator::LocalHeap;
use overtaking::laws::{never_stuck, no_cycle, overtaken_once, quiet_is_retired};
use overtaking::{NoMemory, meals_after_ask, ranking};
use std::alloc::{Allocator, Global};
use std::process::Abort;

/// Takes all of these steps, and adds their events.
fn record<T: Allocator, V: Allocator>(
    rt: &impl Abort,
    world: &mut World<'_, T>,
    events: &mut Vec<Event, V>,
    steps: &[Do],
) {
    for step in steps {
        let event = event_of(rt, world, *step);
        assert!(rt; events.push(event).is_ok());
        take(rt, world, *step);
    }
}

/// The meals that overtake the request of the job at this place of the events.
fn overtaking<T: Allocator>(
    rt: &impl Abort,
    world: &World<'_, T>,
    events: &[Event],
    place: usize,
    job: JobNo,
) -> u64 {
    let plan = world.plan();
    assert!(rt; owns(plan, job, EdgeNo(AB)));
    assert!(rt; events.get(place) == Some(&Event::AskFork(job, EdgeNo(AB))));
    meals_after_ask(plan, events, place, job, EdgeNo(AB))
}

/// The places of the two requests among the steps of the stale mark.
const B_ASKS: usize = stage::B_ASKS - 1;

const A_ASKS: usize = stage::A_ASKS - 1;

fn check_overtaking<T: Allocator, V: Allocator>(
    rt: &impl Abort,
    world: &mut World<'_, T>,
    events: &mut Vec<Event, V>,
) {
    let steps = STALE_MARK.as_slice();
    record(rt, world, events, &steps[..stage::A_HAS_A_STALE_MARK]);
    let sits = world.step(Event::Sit(JobNo(A))).is_ok();
    check(rt, "sits", sits, false);
    let of_b = overtaking(rt, world, events, B_ASKS, JobNo(B));
    check(rt, "of b, so far", of_b, 1);
    record(rt, world, events, &steps[stage::A_HAS_A_STALE_MARK..]);
    let of_b = overtaking(rt, world, events, B_ASKS, JobNo(B));
    check(rt, "of b", of_b, 1);
    let of_a = overtaking(rt, world, events, A_ASKS, JobNo(A));
    check(rt, "of a", of_a, 0);
}

/// The overtaking at a request, while the job with the stale mark has to wait, and after it ate once more.
pub(super) fn overtakes_once<T: Allocator, V: Allocator>(
    rt: &impl Abort,
    alloc: V,
    world: &mut World<'_, T>,
) -> bool {
    let mut events = Vec::new(alloc);
    check_overtaking(rt, world, &mut events);
    true
}

#[test]
fn stale_mark(rt: HostRuntime) {
    assert!(rt; ask(&rt, rt.alloc(), TWICE, &ALL_LOWER, Question::Overtaking));
}

/// Whether these are the jobs with these numbers.
fn is_order(order: &[JobNo], [first, second, third]: [u8; 3]) -> bool {
    order == [JobNo(first), JobNo(second), JobNo(third)].as_slice()
}

fn ranks<T: Allocator, V: Allocator + Copy>(
    rt: &impl Abort,
    alloc: V,
    world: &World<'_, T>,
    wanted: [u8; 3],
) -> bool {
    match ranking(alloc, world) {
        Ok(order) => is_order(&order, wanted),
        Err(_) => panic!(rt; "no memory"),
    }
}

/// Each of these steps, and the same ranking after each.
fn keeps_ranking<T: Allocator, V: Allocator + Copy>(
    rt: &impl Abort,
    alloc: V,
    world: &mut World<'_, T>,
    steps: &[Do],
    wanted: [u8; 3],
) {
    for step in steps {
        take(rt, world, *step);
        check(rt, step_of(*step), ranks(rt, alloc, world, wanted), true);
    }
}

pub(super) fn turns_with_meals<T: Allocator, V: Allocator + Copy>(
    rt: &impl Abort,
    alloc: V,
    world: &mut World<'_, T>,
) -> bool {
    check(rt, "at first", ranks(rt, alloc, world, [A, B, C]), true);
    let steps = MEAL_OF_THREE.as_slice();
    keeps_ranking(rt, alloc, world, &steps[..BEFORE_THE_MEAL], [A, B, C]);
    keeps_ranking(rt, alloc, world, &steps[BEFORE_THE_MEAL..], [B, C, A]);
    true
}

#[test]
fn rankings_of_a_triangle(rt: HostRuntime) {
    assert!(rt; ask(&rt, rt.alloc(), THREE, &FORKS_HIGHER, Question::Rankings));
}

/// The laws are contracts: what is called does nothing.
#[test]
fn laws_do_nothing() {
    no_cycle();
    overtaken_once();
    never_stuck();
    quiet_is_retired();
}

/// Whether a ranking finds room on the heap; if so, it is the right one.
pub(super) fn has_room<T: Allocator>(
    rt: &impl Abort,
    heap: &LocalHeap,
    world: &World<'_, T>,
) -> bool {
    match ranking(heap, world) {
        Ok(order) => {
            check(rt, "ranking", is_order(&order, [A, B, C]), true);
            true
        }
        Err(NoMemory) => false,
    }
}

/// The same of a heap of this size.
fn has_room_on(rt: &impl Abort, alloc: Global, size: usize) -> bool {
    match LocalHeap::new(alloc, size) {
        Ok(heap) => ask(rt, alloc, THREE, &FORKS_HIGHER, Question::Ranking(&heap)),
        Err(_) => panic!(rt; "no heap"),
    }
}

/// Each allocation is refused in turn, by a heap that is a little larger in each run.
#[test]
fn refuses_allocation(rt: HostRuntime) {
    let (mut refusals, mut answers) = (0u32, 0u32);
    for budget in 1..40usize {
        if has_room_on(&rt, rt.alloc(), 16 * budget) {
            answers = answers.saturating_add(1);
        } else {
            refusals = refusals.saturating_add(1);
        }
    }
    assert!(rt; answers > 1 && refusals > 1);
}
