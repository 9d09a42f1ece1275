//! The events that a world keeps, and what is left of it once it comes apart.
use super::{OPENED_EDGE, open};
use crate::benches::{A, AB, B, Do, TWICE, event_seen, plan_of, step_of};
use crate::rows::check;
use crate::waits::take;
use interleaving::{JobState, World};
use lab_plan::{JobNo, Plan};
use std::alloc::Allocator;
use std::process::Abort;

/// What is done to a world, or what it says then.
#[derive(Clone, Copy)]
enum Row {
    Does(Do),
    /// From here on so many events are kept.
    Keeps(usize),
    /// What is kept is taken.
    Takes,
    /// These are kept, there is room for so many more, and whether no other was left out.
    Kept(&'static [Do], usize, bool),
}

const ROWS: [Row; 13] = [
    // with no room nothing is kept, and then an event is left out
    Row::Kept(&[], 0, true),
    Row::Does(Do::Thirst(A)),
    Row::Kept(&[], 0, false),
    Row::Keeps(1),
    Row::Kept(&[], 1, true),
    Row::Does(Do::Thirst(B)),
    Row::Kept(&[Do::Thirst(B)], 0, true),
    Row::Takes,
    Row::Kept(&[], 1, true),
    Row::Does(Do::Look(A, AB)),
    Row::Kept(&[Do::Look(A, AB)], 0, true),
    Row::Does(Do::Look(A, AB)),
    Row::Kept(&[Do::Look(A, AB)], 0, false),
];

/// Whether these events are kept, in which the edge is seen as it opens.
fn are_kept<T: Allocator>(world: &World<T>, steps: &[Do]) -> bool {
    let kept = world.kept();
    if kept.len() != steps.len() {
        return false;
    }
    for place in 0..steps.len() {
        if kept[place] != event_seen(step_of(steps[place]), OPENED_EDGE, JobState::IDLE) {
            return false;
        }
    }
    true
}

fn is_kept<T: Allocator>(
    rt: &impl Abort,
    world: &World<T>,
    number: usize,
    steps: &[Do],
    told: (usize, bool),
) {
    check(rt, number, are_kept(world, steps), true);
    check(rt, number, (world.kept_room(), world.is_whole()), told);
}

fn follow<T: Allocator + Copy>(
    rt: &impl Abort,
    alloc: T,
    world: &mut World<T>,
    number: usize,
    row: Row,
) {
    match row {
        Row::Does(it) => take(rt, world, it),
        Row::Keeps(most) => check(rt, number, world.keep(alloc, most).is_ok(), true),
        Row::Takes => world.take_kept(),
        Row::Kept(steps, room, whole) => is_kept(rt, world, number, steps, (room, whole)),
    }
}

fn follow_all<T: Allocator + Copy>(rt: &impl Abort, alloc: T, world: &mut World<T>) {
    for number in 0..ROWS.len() {
        follow(rt, alloc, world, number, ROWS[number]);
    }
}

fn keeps<T: Allocator + Copy>(rt: &impl Abort, alloc: T, plan: &Plan<T>) {
    let mut world = open(rt, alloc, plan);
    follow_all(rt, alloc, &mut world);
}

#[test]
fn keeps_what_there_is_room_for(rt: HostRuntime) {
    let plan = plan_of(&rt, rt.alloc(), TWICE);
    keeps(&rt, rt.alloc(), &plan);
}

/// Job a sees its fork and its bottle; job b has neither.
fn has_marks_of_a<T: Allocator>(rt: &impl Abort, world: &World<T>) {
    assert!(rt; world.plan().jobs() == 2);
    let forks_of_a = world.fork_marks(JobNo(A)) == [true].as_slice();
    let bottles_of_a = world.all_bottle_marks(JobNo(A)) == [1].as_slice();
    let bottles_of_b = world.all_bottle_marks(JobNo(B)) == [0].as_slice();
    let came = (forks_of_a, bottles_of_a, bottles_of_b);
    check(rt, "marks", came, (true, true, true));
}

fn thirsts_and_looks<T: Allocator>(rt: &impl Abort, world: &mut World<T>) {
    take(rt, world, Do::Thirst(A));
    take(rt, world, Do::Look(A, AB));
    has_marks_of_a(rt, world);
}

/// How many logs a world has once it has come apart.
fn logs_of<T: Allocator + Copy>(rt: &impl Abort, alloc: T, plan: &Plan<T>) -> usize {
    let mut world = open(rt, alloc, plan);
    thirsts_and_looks(rt, &mut world);
    let (logs, _) = world.into_logs();
    logs.len()
}

#[test]
fn comes_apart(rt: HostRuntime) {
    let plan = plan_of(&rt, rt.alloc(), TWICE);
    let logs = logs_of(&rt, rt.alloc(), &plan);
    assert!(rt; logs == plan.instruments());
}
