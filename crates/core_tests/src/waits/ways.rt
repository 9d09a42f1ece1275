//! Ways on.
use super::{ALL_LOWER, FORKS_HIGHER, Question, ask, take};
use crate::benches::{
    A, AB, B, Do, IMPATIENT, MEAL_FIRST, MEAL_OF_THREE, STALE_MARK, THREE, THREE_ADD, TWICE, TWO,
    step_of,
};
use crate::rows::check;
use interleaving::{EndChoice, World};
use lab_plan::InstrumentNo;
use overtaking::way_on;
use std::alloc::Allocator;
use std::process::Abort;

/// Whether some event leads on, which has to be legal.
fn leads_on<T: Allocator>(rt: &impl Abort, world: &World<'_, T>) -> bool {
    match way_on(world) {
        Some(event) => {
            assert!(rt; world.enabled(event));
            true
        }
        None => false,
    }
}

/// Whether a way leads on before each of these steps, and behind them all as wanted.
pub(super) fn leads_all_along<T: Allocator>(
    rt: &impl Abort,
    world: &mut World<'_, T>,
    steps: &[Do],
    at_end: bool,
) -> bool {
    for step in steps {
        check(rt, step_of(*step), leads_on(rt, world), true);
        take(rt, world, *step);
    }
    leads_on(rt, world) == at_end
}

/// Job b gives its session up, and a drinks: then both retire.
const GIVEN_UP: [Do; 10] = [
    Do::Thirst(A),
    Do::Thirst(B),
    Do::Look(A, AB),
    Do::Drink(A),
    Do::Withdraw(B),
    Do::Reach(A),
    Do::Retire(B),
    Do::Act(A),
    Do::Quit(A),
    Do::Retire(A),
];

fn is_so<T: Allocator + Copy>(
    rt: &impl Abort,
    alloc: T,
    script: &str,
    choices: &[EndChoice],
    question: Question,
) {
    check(rt, script, ask(rt, alloc, script, choices, question), true);
}

/// Behind the steps a way leads on if some job isn't retired by then.
#[test]
fn leads_on_in_each_run(rt: HostRuntime) {
    let alloc = rt.alloc();
    is_so(
        &rt,
        alloc,
        TWO,
        &ALL_LOWER,
        Question::Leads(&MEAL_FIRST, true),
    );
    is_so(
        &rt,
        alloc,
        TWICE,
        &ALL_LOWER,
        Question::Leads(&STALE_MARK, true),
    );
    is_so(
        &rt,
        alloc,
        THREE,
        &FORKS_HIGHER,
        Question::Leads(&MEAL_OF_THREE, true),
    );
    is_so(
        &rt,
        alloc,
        IMPATIENT,
        &ALL_LOWER,
        Question::Leads(&GIVEN_UP, false),
    );
}

/// The turns of a run in which b gives its session up in its second one.
const GIVES_UP_AT_ONCE: [Do; 20] = [
    Do::Look(A, AB),
    Do::Thirst(A),
    Do::Look(B, AB),
    Do::Thirst(B),
    Do::Look(A, AB),
    Do::Drink(A),
    Do::Look(B, AB),
    Do::AskBottles(B, AB, 1),
    Do::Withdraw(B),
    Do::Look(A, AB),
    Do::Reach(A),
    Do::Act(A),
    Do::Look(B, AB),
    Do::Retire(B),
    Do::Look(A, AB),
    Do::Quit(A),
    Do::Look(B, AB),
    Do::Look(A, AB),
    Do::GiveBottles(A, AB, 1),
    Do::Retire(A),
];

/// Those of a run in which b gives up in its third turn, and has the meal that it asked for.
const GIVES_UP_LATER: [Do; 29] = [
    Do::Look(A, AB),
    Do::Thirst(A),
    Do::Look(B, AB),
    Do::Thirst(B),
    Do::Look(A, AB),
    Do::Drink(A),
    Do::Look(B, AB),
    Do::AskBottles(B, AB, 1),
    Do::Hunger(B),
    Do::Look(A, AB),
    Do::Reach(A),
    Do::Act(A),
    Do::Look(B, AB),
    Do::AskFork(B, AB),
    Do::Withdraw(B),
    Do::Look(A, AB),
    Do::GiveFork(A, AB),
    Do::Quit(A),
    Do::Look(B, AB),
    Do::Sit(B),
    Do::Look(A, AB),
    Do::GiveBottles(A, AB, 1),
    Do::Retire(A),
    Do::Look(B, AB),
    Do::Soil(B, AB),
    Do::Leave(B),
    Do::Look(A, AB),
    Do::Look(B, AB),
    Do::Retire(B),
];

/// Those of a run in which b has what it needs before it gives up.
const NEVER_GIVES_UP: [Do; 38] = [
    Do::Look(A, AB),
    Do::Thirst(A),
    Do::Look(B, AB),
    Do::Thirst(B),
    Do::Look(A, AB),
    Do::Drink(A),
    Do::Look(B, AB),
    Do::AskBottles(B, AB, 1),
    Do::Hunger(B),
    Do::Look(A, AB),
    Do::Reach(A),
    Do::Act(A),
    Do::Look(B, AB),
    Do::AskFork(B, AB),
    Do::Look(A, AB),
    Do::GiveFork(A, AB),
    Do::Quit(A),
    Do::Look(B, AB),
    Do::Sit(B),
    Do::Look(A, AB),
    Do::GiveBottles(A, AB, 1),
    Do::Retire(A),
    Do::Look(B, AB),
    Do::Soil(B, AB),
    Do::Drink(B),
    Do::Look(A, AB),
    Do::Look(B, AB),
    Do::Reach(B),
    Do::Act(B),
    Do::Look(A, AB),
    Do::Look(B, AB),
    Do::Quit(B),
    Do::Look(A, AB),
    Do::Look(B, AB),
    Do::Leave(B),
    Do::Look(A, AB),
    Do::Look(B, AB),
    Do::Retire(B),
];

/// All of them lead to the end.
const MAY_GIVE_UP: [&[Do]; 3] = [&GIVES_UP_AT_ONCE, &GIVES_UP_LATER, &NEVER_GIVES_UP];

#[test]
fn leads_on_while_b_may_give_up(rt: HostRuntime) {
    for &steps in &MAY_GIVE_UP {
        let question = Question::Leads(steps, false);
        is_so(&rt, rt.alloc(), IMPATIENT, &ALL_LOWER, question);
    }
}

/// Goes on by `way_on` alone until it answers none, for at most 200 events.
fn drive<T: Allocator>(rt: &impl Abort, world: &mut World<'_, T>) {
    for _ in 0..200 {
        match way_on(world) {
            Some(event) => assert!(rt; world.step(event).is_ok()),
            None => return,
        }
    }
    panic!(rt; "no end");
}

/// Whether the log of the instrument has entries with just these values.
fn has_values<T: Allocator>(
    rt: &impl Abort,
    world: &World<'_, T>,
    instrument: InstrumentNo,
    values: &[u32],
) -> bool {
    assert!(rt; (instrument.0 as usize) < world.plan().instruments());
    let log = world.log(instrument);
    if log.len() != values.len() {
        return false;
    }
    for index in 0..log.len() {
        if log.entry(index).value != values[index] {
            return false;
        }
    }
    true
}

/// Whether `way_on` alone leads from the start to its end, with these values in the log of each instrument.
pub(super) fn drives_to<T: Allocator>(
    rt: &impl Abort,
    world: &mut World<'_, T>,
    values: &[u32],
) -> bool {
    drive(rt, world);
    for number in 0..world.plan().instruments() {
        if !has_values(rt, world, InstrumentNo(number as u8), values) {
            return false;
        }
    }
    way_on(world).is_none()
}

/// The values that stand in each log at the end.
#[test]
fn drives_to_each_end(rt: HostRuntime) {
    let alloc = rt.alloc();
    is_so(&rt, alloc, TWO, &ALL_LOWER, Question::Drives(&[1, 2]));
    is_so(&rt, alloc, TWICE, &ALL_LOWER, Question::Drives(&[1, 2, 3]));
    // nobody withdraws on this way
    is_so(&rt, alloc, IMPATIENT, &ALL_LOWER, Question::Drives(&[1, 2]));
    is_so(
        &rt,
        alloc,
        THREE_ADD,
        &FORKS_HIGHER,
        Question::Drives(&[1, 2, 3]),
    );
    // without jobs nothing is left to do
    is_so(&rt, alloc, "lab 1", &[], Question::Drives(&[]));
}
