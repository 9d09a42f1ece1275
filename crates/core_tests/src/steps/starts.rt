//! Starts, and memory that runs out.
use super::{Told, Way, replayed, tell};
use crate::benches::{A, AB, STALE_MARK, THREE, TWICE, TWO, plan_of};
use crate::rows::check;
use interleaving::{EdgeState, End, EndChoice, Event, NoMemory, StartRefusal, World};
use lab_plan::{EdgeNo, JobNo, Plan};
use linked_list_allocator::LocalHeap;
use script_reader::read_plan;
use std::alloc::{Allocator, Global};
use std::process::Abort;

const LOWER: EndChoice = EndChoice {
    fork: End::Lower,
    bottles: 0,
};

const HIGHER: EndChoice = EndChoice {
    fork: End::Higher,
    bottles: 0,
};

/// The first edge of a world, where the first job may begin its session.
fn opened_edge<T: Allocator>(rt: &impl Abort, world: &World<T>) -> EdgeState {
    assert!(rt; world.plan().edges() > 0);
    check(
        rt,
        "may begin",
        world.enabled(Event::Thirst(JobNo(A))),
        true,
    );
    world.edge(EdgeNo(AB))
}

/// The first edge of a world at its start, or why there is none.
fn start_of<T: Allocator + Copy>(
    rt: &impl Abort,
    alloc: T,
    plan: &Plan<T>,
    choices: &[EndChoice],
) -> Result<EdgeState, StartRefusal> {
    match World::start(alloc, plan, choices) {
        Ok(world) => Ok(opened_edge(rt, &world)),
        Err(refusal) => Err(refusal),
    }
}

fn start<T: Allocator + Copy>(
    rt: &impl Abort,
    alloc: T,
    script: &str,
    choices: &[EndChoice],
) -> Result<EdgeState, StartRefusal> {
    let plan = plan_of(rt, alloc, script);
    start_of(rt, alloc, &plan, choices)
}

/// The script starts so with these choices.
fn starts_as<T: Allocator + Copy>(
    rt: &impl Abort,
    alloc: T,
    script: &str,
    choices: &[EndChoice],
    wanted: Result<EdgeState, StartRefusal>,
) {
    let answer = start(rt, alloc, script, choices);
    check(rt, choices, answer, wanted);
}

/// Of a triangle, the forks by the edges 0-1, 0-2 and 1-2: at 0, 2 and 1, and the other way round.
const ROUND: [EndChoice; 3] = [LOWER, HIGHER, LOWER];

const OTHER_ROUND: [EndChoice; 3] = [HIGHER, LOWER, HIGHER];

const TOO_FEW: [EndChoice; 2] = [LOWER, LOWER];

const TOO_MANY: [EndChoice; 4] = [LOWER, LOWER, LOWER, LOWER];

/// An edge with three bottles has no fourth; the cycle isn't looked for.
const NO_SUCH_BOTTLE: [EndChoice; 3] = [
    LOWER,
    HIGHER,
    EndChoice {
        fork: End::Lower,
        bottles: 8,
    },
];

/// Choices, and why a triangle doesn't start with them.
const REFUSED: [(&[EndChoice], StartRefusal); 5] = [
    (&ROUND, StartRefusal::Cycle),
    (&OTHER_ROUND, StartRefusal::Cycle),
    (&TOO_FEW, StartRefusal::BadChoices),
    (&TOO_MANY, StartRefusal::BadChoices),
    (&NO_SUCH_BOTTLE, StartRefusal::BadChoices),
];

#[test]
fn starts_are_refused(rt: HostRuntime) {
    for (choices, refusal) in &REFUSED {
        starts_as(&rt, rt.alloc(), THREE, choices, Err(*refusal));
    }
}

/// All 28 bottles at the higher end, and one more.
const ALL: [EndChoice; 1] = [EndChoice {
    fork: End::Higher,
    bottles: 0x0fff_ffff,
}];

const ONE_MORE: [EndChoice; 1] = [EndChoice {
    fork: End::Higher,
    bottles: 0x1000_0000,
}];

const ALL_HIGHER: EdgeState = EdgeState {
    fork: End::Higher,
    dirty: true,
    token: End::Lower,
    bottles: 0x0fff_ffff,
    bottle_tokens: 0,
};

const ALL_LOWER: EdgeState = EdgeState {
    fork: End::Lower,
    dirty: true,
    token: End::Higher,
    bottles: 0,
    bottle_tokens: 0x0fff_ffff,
};

/// Two jobs that read the same 28 instruments.
const MANY: &str =
    "lab 1\njob a\nsession\ni0 read\ni1 read\ni2 read\ni3 read\ni4 read\ni5 read\ni6 read\ni7 read\ni8 read\ni9 read\ni10 read\ni11 read\ni12 read\ni13 read\ni14 read\ni15 read\ni16 read\ni17 read\ni18 read\ni19 read\ni20 read\ni21 read\ni22 read\ni23 read\ni24 read\ni25 read\ni26 read\ni27 read\nend\njob b\nsession\ni0 read\ni1 read\ni2 read\ni3 read\ni4 read\ni5 read\ni6 read\ni7 read\ni8 read\ni9 read\ni10 read\ni11 read\ni12 read\ni13 read\ni14 read\ni15 read\ni16 read\ni17 read\ni18 read\ni19 read\ni20 read\ni21 read\ni22 read\ni23 read\ni24 read\ni25 read\ni26 read\ni27 read\nend\n";

#[test]
fn many_in_common(rt: HostRuntime) {
    starts_as(&rt, rt.alloc(), MANY, &ALL, Ok(ALL_HIGHER));
    starts_as(&rt, rt.alloc(), MANY, &[LOWER], Ok(ALL_LOWER));
    starts_as(
        &rt,
        rt.alloc(),
        MANY,
        &ONE_MORE,
        Err(StartRefusal::BadChoices),
    );
}

/// Whether there is memory for a start; choices that don't fit come first.
fn starts<T: Allocator + Copy>(rt: &impl Abort, heap: T, plan: &Plan<T>) -> bool {
    let without = start_of(rt, heap, plan, &[]);
    check(rt, "no choices", without, Err(StartRefusal::BadChoices));
    let answer = start_of(rt, heap, plan, &[HIGHER]);
    let is_known = answer.is_ok() || answer == Err(StartRefusal::NoMemory);
    check(rt, answer, is_known, true);
    answer.is_ok()
}

/// The same for the initial state.
fn opens<T: Allocator + Copy>(heap: T, plan: &Plan<T>) -> bool {
    match World::opening(heap, plan) {
        Ok(world) => world.enabled(Event::Thirst(JobNo(A))),
        Err(NoMemory) => false,
    }
}

/// The same with a world that owns the plan.
fn opens_its_own<T: Allocator + Copy>(heap: T, plan: Plan<T>) -> bool {
    match World::of_plan(heap, plan) {
        Ok(world) => world.enabled(Event::Thirst(JobNo(A))),
        Err(NoMemory) => false,
    }
}

/// Whether a heap has memory for a plan of its own; then for a start, for the initial state, and for a world that owns the plan.
fn read_and_begun<T: Allocator + Copy>(rt: &impl Abort, heap: T) -> Option<(bool, bool, bool)> {
    match read_plan(heap, TWO.as_bytes()) {
        Ok(plan) => {
            let (started, opened) = (starts(rt, heap, &plan), opens(heap, &plan));
            Some((started, opened, opens_its_own(heap, plan)))
        }
        Err(_) => None,
    }
}

/// Whether a heap that holds the plan has memory for a start, and for the initial state; none if it has none even for the plan.
/// A world that owns the plan takes no more, and gives all of it back.
fn begins<T: Allocator + Copy>(rt: &impl Abort, heap: T) -> Option<(bool, bool)> {
    match read_and_begun(rt, heap) {
        Some((started, opened, opened_its_own)) => {
            check(rt, "owned", opened_its_own, opened);
            let has_room_again = read_plan(heap, TWO.as_bytes()).is_ok();
            check(rt, "read again", has_room_again, true);
            Some((started, opened))
        }
        None => None,
    }
}

/// The same of a heap of this size.
fn begins_on(rt: &impl Abort, alloc: Global, size: usize) -> Option<(bool, bool)> {
    match LocalHeap::new(alloc, size) {
        Ok(heap) => begins(rt, &heap),
        Err(_) => panic!(rt; "no heap"),
    }
}

/// Whether starts and openings were done, and whether some were refused, so far.
#[derive(Clone, Copy, PartialEq)]
struct Begun {
    started: bool,
    opened: bool,
    starts_refused: bool,
    openings_refused: bool,
}

const NONE_BEGUN: Begun = Begun {
    started: false,
    opened: false,
    starts_refused: false,
    openings_refused: false,
};

const ALL_BEGUN: Begun = Begun {
    started: true,
    opened: true,
    starts_refused: true,
    openings_refused: true,
};

/// With another heap, on which a start and an opening are done if one was before.
fn and_then(rt: &impl Abort, so_far: Begun, (started, opened): (bool, bool), size: usize) -> Begun {
    check(rt, size, started || !so_far.started, true);
    check(rt, size, opened || !so_far.opened, true);
    Begun {
        started,
        opened,
        starts_refused: so_far.starts_refused || !started,
        openings_refused: so_far.openings_refused || !opened,
    }
}

/// A heap that is a little larger in each run: from the first that does on, each does.
#[test]
fn allocations_are_refused(rt: HostRuntime) {
    let mut begun = NONE_BEGUN;
    for budget in 0..512 {
        let size = 64 * budget;
        if let Some(came) = begins_on(&rt, rt.alloc(), size) {
            begun = and_then(&rt, begun, came, size);
        }
    }
    assert!(rt; begun == ALL_BEGUN);
}

/// What a world tells that owns its plan.
fn told_by_owner<T: Allocator + Copy>(rt: &impl Abort, alloc: T, script: &str, way: Way) -> Told {
    match World::of_plan(alloc, plan_of(rt, alloc, script)) {
        Ok(mut world) => tell(rt, &mut world, way),
        Err(_) => panic!(rt; "no memory"),
    }
}

#[test]
fn a_world_owns_its_plan(rt: HostRuntime) {
    let alloc = rt.alloc();
    let way = Way::Steps(&STALE_MARK);
    assert!(rt; told_by_owner(&rt, alloc, TWICE, way) == replayed(&rt, alloc, TWICE, way));
}
