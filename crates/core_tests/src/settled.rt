//! What is left to do of itself is done, in a world of two jobs: worked out by hand.
use crate::benches::{A, AB, B, Do, TWO, plan_of};
use crate::rows::check;
use crate::steps::open;
use crate::waits::{owns, take};
use interleaving::{Dining, Drinking, EdgeState, End, JobState, World};
use lab_plan::{EdgeNo, JobNo, Plan};
use settling::{Due, due_moves, has_still_nothing_to_do, rest, stays_marked, visit, visit_all};
use std::alloc::Allocator;
use std::process::Abort;

/// What is seen of a world that rests: how many deeds that took, its two jobs and their edge.
#[derive(Clone, Copy, PartialEq)]
struct Rested {
    deeds: u32,
    a: JobState,
    b: JobState,
    edge: EdgeState,
}

/// How many deeds a rest takes, and one more.
fn rest_twice<T: Allocator + Copy>(
    rt: &impl Abort,
    alloc: T,
    world: &mut World<'_, T>,
) -> (u32, u32) {
    let Ok(mut due) = Due::all(alloc, world.plan()) else {
        panic!(rt; "no memory")
    };
    let deeds = rest(world, &mut due);
    (deeds, rest(world, &mut due))
}

/// Lets the world rest, which is done after one rest.
fn let_rest<T: Allocator + Copy>(rt: &impl Abort, alloc: T, world: &mut World<'_, T>) -> Rested {
    let (deeds, again) = rest_twice(rt, alloc, world);
    check(rt, deeds, again, 0);
    assert!(rt; world.plan().jobs() >= 2 && world.plan().edges() >= 1);
    Rested {
        deeds,
        a: world.job(JobNo(A)),
        b: world.job(JobNo(B)),
        edge: world.edge(EdgeNo(AB)),
    }
}

/// The first asks for nothing, since it has its bottle, and drinks. The second asks for the bottle, becomes hungry, asks for the fork, is
/// given it, eats and soils it: seven deeds.
const FIRST_DRINKS: Rested = Rested {
    deeds: 7,
    a: JobState {
        dining: Dining::Thinking,
        drinking: Drinking::Drinking,
        session: 1,
        position: 0,
    },
    b: JobState {
        dining: Dining::Eating,
        drinking: Drinking::Thirsty,
        session: 1,
        position: 0,
    },
    edge: EdgeState {
        fork: End::Higher,
        dirty: true,
        token: End::Lower,
        bottles: 0,
        bottle_tokens: 0,
    },
};

/// Once its session ended it gives the bottle, and the other drinks and ends its meal.
const SECOND_DRINKS: Rested = Rested {
    deeds: 3,
    a: JobState {
        dining: Dining::Thinking,
        drinking: Drinking::Tranquil,
        session: 1,
        position: 0,
    },
    b: JobState {
        dining: Dining::Thinking,
        drinking: Drinking::Drinking,
        session: 1,
        position: 0,
    },
    edge: EdgeState {
        fork: End::Higher,
        dirty: true,
        token: End::Lower,
        bottles: 1,
        bottle_tokens: 0,
    },
};

/// The moves that are due to the job: whether it gives the fork, asks for it or soils it, and the bottles that it gives and asks for.
type Moves = (bool, bool, bool, u32, u32);

const NO_MOVE: Moves = (false, false, false, 0, 0);

fn moves_of<T: Allocator>(rt: &impl Abort, world: &World<T>, job: JobNo) -> Moves {
    assert!(rt; owns(world.plan(), job, EdgeNo(AB)));
    let it = due_moves(world, job, EdgeNo(AB));
    (
        it.give_fork,
        it.ask_fork,
        it.soil,
        it.give_bottles,
        it.ask_bottles,
    )
}

fn visits<T: Allocator>(rt: &impl Abort, world: &mut World<T>, job: JobNo) -> u32 {
    assert!(rt; owns(world.plan(), job, EdgeNo(AB)));
    visit(world, job, EdgeNo(AB))
}

fn visits_all<T: Allocator>(rt: &impl Abort, world: &mut World<T>, job: JobNo) -> u32 {
    assert!(rt; world.plan().jobs() > job.0 as usize);
    visit_all(world, job)
}

/// What is done to a world, or what is due in it.
#[derive(Clone, Copy)]
enum Row {
    /// A step, which is legal.
    Does(Do),
    /// The moves that are due to the job.
    Due(u8, Moves),
    /// How many deeds a visit of the job at its edge does.
    Visits(u8, u32),
    /// The same of a visit at all its edges.
    VisitsAll(u8, u32),
    /// The world rests, and is seen so.
    Rests(&'static Rested),
}

/// Once both thirst, and once the session of the first ended.
const RESTS: [Row; 7] = [
    Row::Does(Do::Thirst(A)),
    Row::Does(Do::Thirst(B)),
    Row::Rests(&FIRST_DRINKS),
    Row::Does(Do::Reach(A)),
    Row::Does(Do::Act(A)),
    Row::Does(Do::Quit(A)),
    Row::Rests(&SECOND_DRINKS),
];

/// What is due is done, and then nothing is: b asks for the bottle; once it is hungry, for the fork, which a gives, but not the bottle, since
/// it drinks.
const VISITS: [Row; 16] = [
    Row::Does(Do::Thirst(A)),
    Row::Does(Do::Thirst(B)),
    // a looks, and sees its bottle
    Row::Visits(A, 0),
    Row::Does(Do::Drink(A)),
    Row::Due(B, (false, false, false, 0, 1)),
    Row::Visits(B, 1),
    Row::Visits(B, 0),
    Row::Due(A, NO_MOVE),
    Row::VisitsAll(A, 0),
    Row::Does(Do::Hunger(B)),
    Row::Due(B, (false, true, false, 0, 0)),
    Row::VisitsAll(B, 1),
    Row::VisitsAll(B, 0),
    Row::Due(A, (true, false, false, 0, 0)),
    Row::Visits(A, 1),
    Row::Visits(A, 0),
];

/// Whether the row is so.
fn is_so<T: Allocator + Copy>(
    rt: &impl Abort,
    alloc: T,
    world: &mut World<'_, T>,
    row: Row,
) -> bool {
    match row {
        Row::Does(it) => {
            take(rt, world, it);
            true
        }
        Row::Due(job, moves) => moves_of(rt, world, JobNo(job)) == moves,
        Row::Visits(job, deeds) => visits(rt, world, JobNo(job)) == deeds,
        Row::VisitsAll(job, deeds) => visits_all(rt, world, JobNo(job)) == deeds,
        Row::Rests(wanted) => let_rest(rt, alloc, world) == *wanted,
    }
}

fn follow<T: Allocator + Copy>(rt: &impl Abort, alloc: T, world: &mut World<'_, T>, rows: &[Row]) {
    for number in 0..rows.len() {
        check(rt, number, is_so(rt, alloc, world, rows[number]), true);
    }
}

/// It alone owns a world.
fn follow_all<T: Allocator + Copy>(rt: &impl Abort, alloc: T, plan: &Plan<T>, rows: &[Row]) {
    let mut world = open(rt, alloc, plan);
    follow(rt, alloc, &mut world, rows);
}

#[test]
fn settles(rt: HostRuntime) {
    let plan = plan_of(&rt, rt.alloc(), TWO);
    follow_all(&rt, rt.alloc(), &plan, &RESTS);
    follow_all(&rt, rt.alloc(), &plan, &VISITS);
}

/// The laws are contracts: what is called does nothing.
#[test]
fn laws_of_longer_plans() {
    has_still_nothing_to_do();
    stays_marked();
}
