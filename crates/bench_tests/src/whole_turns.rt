//! Turns one after another.
//!
//! A row says who calls what and what it answers, the words that this job then saw last on its edges, and how far it is (dining,
//! drinking, session, position). The numbers at the end of `check` say how many turns each job's session has waited after the rows.
use crate::labs::{
    ALONE, IDLER, PATIENCE_0, PATIENCE_1, PATIENCE_3, RING, TWICE, TWO, opened, plan_of,
    star_script,
};
use crate::seats::Answer::{Acted, Idle, No, Yes};
use crate::seats::Call::{AllRetired, Turn};
use crate::seats::{Seat, seated};
use crate::tables::{A, B, C, Row, check, follow, rows};
use crate::words::{
    CLEAN_A_BOTTLE_A, CLEAN_B_ASKED_BOTTLE_B_ASKED, CLEAN_B_BOTTLE_A_ASKED, CLEAN_B_BOTTLE_B,
    DIRTY_A_ASKED_BOTTLE_A_ASKED, DIRTY_A_BOTTLE_A_ASKED, DIRTY_A_BOTTLE_B, DIRTY_B_ASKED_BOTTLE_A,
    DIRTY_B_ASKED_BOTTLE_B_ASKED, DIRTY_B_BOTTLE_A_ASKED, DIRTY_B_BOTTLE_B, DIRTY_B_BOTTLE_B_ASKED,
    OPEN,
};
use lab_plan::Plan;
use legal_steps::Dining::{Eating, Hungry, Thinking};
use legal_steps::Drinking::{Drinking as Drinks, Retired, Thirsty, Tranquil};
use std::alloc::Allocator;
use std::process::Abort;
use std::test::Fail;

/// Three turns of b come first. Then a gives what it asked for in its one turn.
const B_FIRST: [Row; 4] = rows! {
    B: Turn => Acted(1), [OPEN], Thinking Thirsty 1 0;
    B: Turn => Acted(2), [DIRTY_A_BOTTLE_A_ASKED], Hungry Thirsty 1 0;
    B: Turn => Acted(1), [DIRTY_A_ASKED_BOTTLE_A_ASKED], Hungry Thirsty 1 0;
    A: Turn => Acted(2), [CLEAN_B_BOTTLE_B], Thinking Thirsty 1 0;
};

#[test]
fn three_turns_come_first(rt: HostRuntime) {
    check(&rt, rt.alloc(), TWO, &B_FIRST, &[0, 2]);
}

/// Two jobs take turns: b asks, eats and drinks after a.
const BY_TURNS: [Row; 21] = rows! {
    A: Turn => Acted(1), [OPEN], Thinking Thirsty 1 0;
    B: Turn => Acted(1), [OPEN], Thinking Thirsty 1 0;
    A: Turn => Acted(1), [OPEN], Thinking Drinks 1 0;
    B: Turn => Acted(2), [DIRTY_A_BOTTLE_A_ASKED], Hungry Thirsty 1 0;
    A: Turn => Acted(1), [DIRTY_A_BOTTLE_A_ASKED], Thinking Drinks 1 1;
    B: Turn => Acted(1), [DIRTY_A_ASKED_BOTTLE_A_ASKED], Hungry Thirsty 1 0;
    A: Turn => Acted(2), [CLEAN_B_BOTTLE_A_ASKED], Thinking Tranquil 1 0;
    B: Turn => Acted(1), [CLEAN_B_BOTTLE_A_ASKED], Eating Thirsty 1 0;
    A: Turn => Acted(2), [CLEAN_B_BOTTLE_B], Thinking Retired 1 0;
    B: Turn => Acted(2), [DIRTY_B_BOTTLE_B], Eating Drinks 1 0;
    A: Turn => Idle, [DIRTY_B_BOTTLE_B], Thinking Retired 1 0;
    B: Turn => Acted(1), [DIRTY_B_BOTTLE_B], Eating Drinks 1 1;
    A: Turn => Idle, [DIRTY_B_BOTTLE_B], Thinking Retired 1 0;
    B: Turn => Acted(1), [DIRTY_B_BOTTLE_B], Eating Tranquil 1 0;
    A: Turn => Idle, [DIRTY_B_BOTTLE_B], Thinking Retired 1 0;
    B: Turn => Acted(1), [DIRTY_B_BOTTLE_B], Thinking Tranquil 1 0;
    A: Turn => Idle, [DIRTY_B_BOTTLE_B], Thinking Retired 1 0;
    A: AllRetired => No, [DIRTY_B_BOTTLE_B], Thinking Retired 1 0;
    B: Turn => Acted(1), [DIRTY_B_BOTTLE_B], Thinking Retired 1 0;
    A: AllRetired => Yes, [DIRTY_B_BOTTLE_B], Thinking Retired 1 0;
    B: AllRetired => Yes, [DIRTY_B_BOTTLE_B], Thinking Retired 1 0;
};

#[test]
fn two_jobs_take_turns(rt: HostRuntime) {
    for script in [TWO, PATIENCE_3] {
        check(&rt, rt.alloc(), script, &BY_TURNS, &[0, 3]);
    }
}

/// The second session of a comes after the meal of b.
const SECOND_SESSION: [Row; 28] = rows! {
    A: Turn => Acted(1), [OPEN], Thinking Thirsty 1 0;
    B: Turn => Acted(1), [OPEN], Thinking Thirsty 1 0;
    A: Turn => Acted(1), [OPEN], Thinking Drinks 1 0;
    B: Turn => Acted(2), [DIRTY_A_BOTTLE_A_ASKED], Hungry Thirsty 1 0;
    A: Turn => Acted(1), [DIRTY_A_BOTTLE_A_ASKED], Thinking Drinks 1 1;
    B: Turn => Acted(1), [DIRTY_A_ASKED_BOTTLE_A_ASKED], Hungry Thirsty 1 0;
    A: Turn => Acted(2), [CLEAN_B_BOTTLE_A_ASKED], Thinking Tranquil 1 0;
    B: Turn => Acted(1), [CLEAN_B_BOTTLE_A_ASKED], Eating Thirsty 1 0;
    A: Turn => Acted(2), [CLEAN_B_BOTTLE_B], Thinking Thirsty 2 0;
    B: Turn => Acted(2), [DIRTY_B_BOTTLE_B], Eating Drinks 1 0;
    A: Turn => Acted(2), [DIRTY_B_BOTTLE_B_ASKED], Hungry Thirsty 2 0;
    B: Turn => Acted(1), [DIRTY_B_BOTTLE_B_ASKED], Eating Drinks 1 1;
    A: Turn => Acted(1), [DIRTY_B_ASKED_BOTTLE_B_ASKED], Hungry Thirsty 2 0;
    B: Turn => Acted(1), [DIRTY_B_ASKED_BOTTLE_B_ASKED], Eating Tranquil 1 0;
    A: Turn => Idle, [DIRTY_B_ASKED_BOTTLE_B_ASKED], Hungry Thirsty 2 0;
    B: Turn => Acted(2), [DIRTY_B_ASKED_BOTTLE_A], Thinking Tranquil 1 0;
    A: Turn => Acted(1), [DIRTY_B_ASKED_BOTTLE_A], Hungry Drinks 2 0;
    B: Turn => Acted(2), [CLEAN_A_BOTTLE_A], Thinking Retired 1 0;
    A: Turn => Acted(1), [CLEAN_A_BOTTLE_A], Hungry Drinks 2 1;
    B: Turn => Idle, [CLEAN_A_BOTTLE_A], Thinking Retired 1 0;
    A: Turn => Acted(1), [CLEAN_A_BOTTLE_A], Hungry Tranquil 2 0;
    B: Turn => Idle, [CLEAN_A_BOTTLE_A], Thinking Retired 1 0;
    A: Turn => Acted(1), [CLEAN_A_BOTTLE_A], Eating Tranquil 2 0;
    B: Turn => Idle, [CLEAN_A_BOTTLE_A], Thinking Retired 1 0;
    A: Turn => Acted(2), [OPEN], Thinking Tranquil 2 0;
    B: Turn => Idle, [OPEN], Thinking Retired 1 0;
    A: Turn => Acted(1), [OPEN], Thinking Retired 2 0;
    B: Turn => Idle, [OPEN], Thinking Retired 1 0;
};

#[test]
fn second_session(rt: HostRuntime) {
    check(&rt, rt.alloc(), TWICE, &SECOND_SESSION, &[3, 3]);
}

/// The session of b is given up after one turn of waiting; the fork that it asked for comes, and it eats.
const GIVEN_UP_LATE: [Row; 12] = rows! {
    A: Turn => Acted(1), [OPEN], Thinking Thirsty 1 0;
    B: Turn => Acted(1), [OPEN], Thinking Thirsty 1 0;
    A: Turn => Acted(1), [OPEN], Thinking Drinks 1 0;
    B: Turn => Acted(2), [DIRTY_A_BOTTLE_A_ASKED], Hungry Thirsty 1 0;
    A: Turn => Acted(1), [DIRTY_A_BOTTLE_A_ASKED], Thinking Drinks 1 1;
    B: Turn => Acted(2), [DIRTY_A_ASKED_BOTTLE_A_ASKED], Hungry Tranquil 1 0;
    A: Turn => Acted(2), [CLEAN_B_BOTTLE_A_ASKED], Thinking Tranquil 1 0;
    B: Turn => Acted(1), [CLEAN_B_BOTTLE_A_ASKED], Eating Tranquil 1 0;
    A: Turn => Acted(2), [CLEAN_B_BOTTLE_B], Thinking Retired 1 0;
    B: Turn => Acted(2), [DIRTY_B_BOTTLE_B], Thinking Tranquil 1 0;
    A: Turn => Idle, [DIRTY_B_BOTTLE_B], Thinking Retired 1 0;
    B: Turn => Acted(1), [DIRTY_B_BOTTLE_B], Thinking Retired 1 0;
};

#[test]
fn patience_of_one_turn(rt: HostRuntime) {
    check(&rt, rt.alloc(), PATIENCE_1, &GIVEN_UP_LATE, &[0, 1]);
}

/// The session of b is given up in the turn after its thirst.
const GIVEN_UP_AT_ONCE: [Row; 10] = rows! {
    A: Turn => Acted(1), [OPEN], Thinking Thirsty 1 0;
    B: Turn => Acted(1), [OPEN], Thinking Thirsty 1 0;
    A: Turn => Acted(1), [OPEN], Thinking Drinks 1 0;
    B: Turn => Acted(2), [DIRTY_A_BOTTLE_A_ASKED], Thinking Tranquil 1 0;
    A: Turn => Acted(1), [DIRTY_A_BOTTLE_A_ASKED], Thinking Drinks 1 1;
    B: Turn => Acted(1), [DIRTY_A_BOTTLE_A_ASKED], Thinking Retired 1 0;
    A: Turn => Acted(1), [DIRTY_A_BOTTLE_A_ASKED], Thinking Tranquil 1 0;
    B: Turn => Idle, [DIRTY_A_BOTTLE_A_ASKED], Thinking Retired 1 0;
    A: Turn => Acted(2), [DIRTY_A_BOTTLE_B], Thinking Retired 1 0;
    B: Turn => Idle, [DIRTY_A_BOTTLE_B], Thinking Retired 1 0;
};

#[test]
fn patience_of_no_turn(rt: HostRuntime) {
    check(&rt, rt.alloc(), PATIENCE_0, &GIVEN_UP_AT_ONCE, &[0, 0]);
}

/// A job alone.
const ONE_JOB: [Row; 6] = rows! {
    A: Turn => Acted(1), [], Thinking Thirsty 1 0;
    A: Turn => Acted(1), [], Thinking Drinks 1 0;
    A: Turn => Acted(1), [], Thinking Drinks 1 1;
    A: Turn => Acted(1), [], Thinking Drinks 1 2;
    A: Turn => Acted(1), [], Thinking Tranquil 1 0;
    A: Turn => Acted(1), [], Thinking Retired 1 0;
};

#[test]
fn one_job_alone(rt: HostRuntime) {
    check(&rt, rt.alloc(), ALONE, &ONE_JOB, &[0]);
}

/// A job without a session retires in its first turn.
const WITHOUT_SESSION: [Row; 10] = rows! {
    A: Turn => Acted(1), [], Thinking Retired 0 0;
    B: Turn => Acted(1), [], Thinking Thirsty 1 0;
    A: Turn => Idle, [], Thinking Retired 0 0;
    B: Turn => Acted(1), [], Thinking Drinks 1 0;
    A: Turn => Idle, [], Thinking Retired 0 0;
    B: Turn => Acted(1), [], Thinking Drinks 1 1;
    A: Turn => Idle, [], Thinking Retired 0 0;
    B: Turn => Acted(1), [], Thinking Tranquil 1 0;
    A: Turn => Idle, [], Thinking Retired 0 0;
    B: Turn => Acted(1), [], Thinking Retired 1 0;
};

#[test]
fn job_without_session(rt: HostRuntime) {
    check(&rt, rt.alloc(), IDLER, &WITHOUT_SESSION, &[0, 0]);
}

/// Three jobs in a ring, of which b gives to c what it asked for itself.
const IN_A_RING: [Row; 18] = rows! {
    A: Turn => Acted(1), [OPEN, OPEN], Thinking Thirsty 1 0;
    B: Turn => Acted(1), [OPEN, OPEN], Thinking Thirsty 1 0;
    C: Turn => Acted(1), [OPEN, OPEN], Thinking Thirsty 1 0;
    A: Turn => Acted(1), [OPEN, OPEN], Thinking Drinks 1 0;
    B: Turn => Acted(2), [DIRTY_A_BOTTLE_A_ASKED, OPEN], Hungry Thirsty 1 0;
    C: Turn => Acted(3), [DIRTY_A_BOTTLE_A_ASKED, DIRTY_A_BOTTLE_A_ASKED], Hungry Thirsty 1 0;
    A: Turn => Acted(1), [DIRTY_A_BOTTLE_A_ASKED, DIRTY_A_BOTTLE_A_ASKED], Thinking Drinks 1 1;
    B: Turn => Acted(1), [DIRTY_A_ASKED_BOTTLE_A_ASKED, DIRTY_A_BOTTLE_A_ASKED], Hungry Thirsty 1 0;
    C: Turn => Acted(2), [DIRTY_A_ASKED_BOTTLE_A_ASKED, DIRTY_A_ASKED_BOTTLE_A_ASKED], Hungry Thirsty 1 0;
    A: Turn => Acted(3), [CLEAN_B_BOTTLE_A_ASKED, CLEAN_B_BOTTLE_A_ASKED], Thinking Drinks 1 2;
    B: Turn => Acted(1), [CLEAN_B_BOTTLE_A_ASKED, CLEAN_B_ASKED_BOTTLE_B_ASKED], Hungry Thirsty 1 0;
    C: Turn => Acted(1), [CLEAN_B_BOTTLE_A_ASKED, CLEAN_B_ASKED_BOTTLE_B_ASKED], Eating Thirsty 1 0;
    A: Turn => Acted(1), [CLEAN_B_BOTTLE_A_ASKED, CLEAN_B_BOTTLE_A_ASKED], Thinking Tranquil 1 0;
    B: Turn => Idle, [CLEAN_B_BOTTLE_A_ASKED, CLEAN_B_ASKED_BOTTLE_B_ASKED], Hungry Thirsty 1 0;
    C: Turn => Acted(2), [DIRTY_B_BOTTLE_A_ASKED, DIRTY_B_ASKED_BOTTLE_B_ASKED], Eating Thirsty 1 0;
    A: Turn => Acted(3), [CLEAN_B_BOTTLE_B, DIRTY_B_BOTTLE_B], Thinking Retired 1 0;
    B: Turn => Idle, [CLEAN_B_BOTTLE_B, DIRTY_B_ASKED_BOTTLE_B_ASKED], Hungry Thirsty 1 0;
    C: Turn => Acted(1), [DIRTY_B_BOTTLE_B, DIRTY_B_ASKED_BOTTLE_B_ASKED], Eating Drinks 1 0;
};

#[test]
fn ring_of_three(rt: HostRuntime) {
    check(&rt, rt.alloc(), RING, &IN_A_RING, &[0, 5, 4]);
}

/// A hub that shares an instrument with each of 31 other jobs.
const HUB: usize = 31;

/// The hub asks for 31 bottles at once, and then for 31 forks.
const HUB_ASKS: [Row; 3] = rows! {
    HUB: Turn => Acted(1), [OPEN; 31], Thinking Thirsty 1 0;
    HUB: Turn => Acted(32), [DIRTY_A_BOTTLE_A_ASKED; 31], Hungry Thirsty 1 0;
    HUB: Turn => Acted(31), [DIRTY_A_ASKED_BOTTLE_A_ASKED; 31], Hungry Thirsty 1 0;
};

/// The hub has all its bottles.
const HUB_DRINKS: [Row; 2] = rows! {
    HUB: Turn => Acted(1), [CLEAN_B_BOTTLE_B; 31], Hungry Drinks 1 0;
    HUB: Turn => Acted(1), [CLEAN_B_BOTTLE_B; 31], Hungry Drinks 1 1;
};

/// The word of an edge whose fork and bottle went to the hub.
const SERVED: &[u64] = &[CLEAN_B_BOTTLE_B];

fn serves_hub<T: Allocator>(rt: &impl Abort, seats: &mut [Seat<T>]) {
    follow(rt, seats, &HUB_ASKS);
    for job in 0..HUB {
        let served = (job, Turn, Acted(2), SERVED, (Thinking, Thirsty, 1, 0));
        follow(rt, seats, &[served]);
    }
    follow(rt, seats, &HUB_DRINKS);
}

fn hub_takes_turns<T: Allocator + Copy>(rt: &impl Abort, alloc: T, plan: &Plan<T>) {
    let (bench, desks) = opened(rt, alloc, plan);
    let mut seats = seated(rt, alloc, &bench, desks);
    serves_hub(rt, seats.as_mut_slice());
}

#[test]
fn job_with_31_edges(rt: HostRuntime) -> Result<(), Fail> {
    let script = star_script(rt.alloc())?;
    let plan = plan_of(&rt, rt.alloc(), &script);
    hub_takes_turns(&rt, rt.alloc(), &plan);
    Ok(())
}
