//! Worked cases, whose answers were worked out by hand, of calls that no run of a program shows.
use crate::benches::{A, AB, B, Do, plan_of};
use crate::rows::check;
use crate::waits::go_on;
use instrument_log::Entry;
use interleaving::{Counts, EdgeState, End, Event, JobState, NotLegal, World};
use lab_plan::{EdgeNo, InstrumentNo, JobNo, Plan};
use std::alloc::Allocator;
use std::process::Abort;

mod guards;
mod kept;
mod starts;
mod stops;

/// Whether a job has a mark for the fork, and which bottles it has marks for.
type Marks = (bool, u32);

const NONE: Marks = (false, 0);

/// What a world shows of its first two jobs, their edge and the last entry of the first log.
#[derive(Clone, Copy, PartialEq)]
struct Shown {
    edge: EdgeState,
    a: JobState,
    b: JobState,
    counts: Counts,
    counts_of_b: Counts,
    marks: Marks,
    marks_of_b: Marks,
    last: Option<Entry>,
}

/// The edge of the initial state, with one bottle: fork and bottle at a, their tokens at b.
const OPENED_EDGE: EdgeState = EdgeState {
    fork: End::Lower,
    dirty: true,
    token: End::Higher,
    bottles: 0,
    bottle_tokens: 1,
};

const NO_COUNTS: Counts = Counts {
    meals: 0,
    sessions_done: 0,
    withdrawn: 0,
};

const OPENED: Shown = Shown {
    edge: OPENED_EDGE,
    a: JobState::IDLE,
    b: JobState::IDLE,
    counts: NO_COUNTS,
    counts_of_b: NO_COUNTS,
    marks: NONE,
    marks_of_b: NONE,
    last: None,
};

fn last_entry<T: Allocator>(rt: &impl Abort, world: &World<T>) -> Option<Entry> {
    assert!(rt; world.plan().instruments() > 0);
    let log = world.log(InstrumentNo(0));
    if log.is_empty() {
        return None;
    }
    Some(log.entry(log.len() - 1))
}

fn counts_of<T: Allocator>(rt: &impl Abort, world: &World<T>, job: JobNo) -> Counts {
    assert!(rt; (job.0 as usize) < world.plan().jobs());
    Counts {
        meals: world.meals(job),
        sessions_done: world.sessions_done(job),
        withdrawn: world.withdrawn(job),
    }
}

fn marks_of<T: Allocator>(rt: &impl Abort, world: &World<T>, job: JobNo) -> Marks {
    assert!(rt; world.plan().edges() > 0);
    let (lower, higher) = world.plan().ends(EdgeNo(AB));
    assert!(rt; lower == job || higher == job);
    (
        world.fork_mark(job, EdgeNo(AB)),
        world.bottle_marks(job, EdgeNo(AB)),
    )
}

fn shows<T: Allocator>(rt: &impl Abort, world: &World<T>) -> Shown {
    let plan = world.plan();
    assert!(rt; plan.jobs() >= 2 && plan.edges() >= 1);
    Shown {
        edge: world.edge(EdgeNo(AB)),
        a: world.job(JobNo(A)),
        b: world.job(JobNo(B)),
        counts: counts_of(rt, world, JobNo(A)),
        counts_of_b: counts_of(rt, world, JobNo(B)),
        marks: marks_of(rt, world, JobNo(A)),
        marks_of_b: marks_of(rt, world, JobNo(B)),
        last: last_entry(rt, world),
    }
}

/// Whether the event is done, which has to be where it is said to be enabled. One that is refused changes nothing.
fn does<T: Allocator>(rt: &impl Abort, world: &mut World<T>, event: &Event) -> bool {
    let (before, enabled) = (shows(rt, world), world.enabled(*event));
    let done = world.step(*event).is_ok();
    check(rt, *event, done, enabled);
    check(rt, *event, done || shows(rt, world) == before, true);
    done
}

/// What a replay answers.
type Replayed = Result<usize, (usize, NotLegal)>;

/// What is done from the initial state.
#[derive(Clone, Copy)]
enum Way<'a> {
    /// A replay of these events.
    Events(&'a [Event]),
    /// These steps, which have to be legal.
    Steps(&'a [Do]),
    /// The same, and then the event.
    Then(&'a [Do], &'a Event),
}

/// Answers as a replay of the steps and then the event, but counts the steps alone.
fn walk_to<T: Allocator>(
    rt: &impl Abort,
    world: &mut World<T>,
    steps: &[Do],
    event: &Event,
) -> Replayed {
    go_on(rt, world, steps);
    if does(rt, world, event) {
        Ok(steps.len())
    } else {
        Err((steps.len(), NotLegal))
    }
}

fn goes<T: Allocator>(rt: &impl Abort, world: &mut World<T>, way: Way) -> Replayed {
    match way {
        Way::Events(events) => world.replay(events),
        Way::Steps(steps) => {
            go_on(rt, world, steps);
            Ok(steps.len())
        }
        Way::Then(steps, event) => walk_to(rt, world, steps, event),
    }
}

/// What the way answers, and what the world shows after it.
type Told = (Replayed, Shown);

fn tell<T: Allocator>(rt: &impl Abort, world: &mut World<T>, way: Way) -> Told {
    let answer = goes(rt, world, way);
    (answer, shows(rt, world))
}

pub(crate) fn open<'a, T: Allocator + Copy>(
    rt: &impl Abort,
    alloc: T,
    plan: &'a Plan<T>,
) -> World<'a, T> {
    match World::opening(alloc, plan) {
        Ok(world) => world,
        Err(_) => panic!(rt; "no memory"),
    }
}

/// It alone owns a world.
fn told_of<T: Allocator + Copy>(rt: &impl Abort, alloc: T, plan: &Plan<T>, way: Way) -> Told {
    let mut world = open(rt, alloc, plan);
    tell(rt, &mut world, way)
}

/// What a replay answers, and what the world shows after it.
fn replayed<T: Allocator + Copy>(rt: &impl Abort, alloc: T, script: &str, way: Way) -> Told {
    let plan = plan_of(rt, alloc, script);
    told_of(rt, alloc, &plan, way)
}

/// Whether the event is legal after these steps, and what the world shows then.
fn after<T: Allocator + Copy>(
    rt: &impl Abort,
    alloc: T,
    script: &str,
    steps: &[Do],
    event: &Event,
) -> (bool, Shown) {
    let (answer, shown) = replayed(rt, alloc, script, Way::Then(steps, event));
    (answer.is_ok(), shown)
}
