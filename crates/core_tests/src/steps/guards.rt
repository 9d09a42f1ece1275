//! Events that no step of a text gives: what they see isn't there, or the plan hasn't what they name. Where steps are legal is in
//! `checks/cases` (`of_labview/guards.py`).
use super::{OPENED_EDGE, after};
use crate::benches::{A, AB, B, Do, TWICE, TWO, event_seen, step_of};
use crate::rows::check;
use interleaving::{Drinking, EdgeState, Event, JobState};
use std::alloc::Allocator;
use std::process::Abort;

/// Steps that are taken, an event with what it sees, and whether it is legal then.
#[derive(Clone, Copy)]
struct Sight(&'static [Do], Do, Seen, bool);

/// What is seen: an edge, of which the fork is dirty as it opens, or clean, or a job.
#[derive(Clone, Copy)]
enum Seen {
    Opened,
    Clean,
    Idle,
    Thirsty,
}

const THIRSTY: JobState = JobState {
    drinking: Drinking::Thirsty,
    session: 1,
    ..JobState::IDLE
};

const CLEAN: EdgeState = EdgeState {
    dirty: false,
    ..OPENED_EDGE
};

fn event_of(it: Do, seen: Seen) -> Event {
    let step = step_of(it);
    match seen {
        Seen::Opened | Seen::Idle => event_seen(step, OPENED_EDGE, JobState::IDLE),
        Seen::Clean | Seen::Thirsty => event_seen(step, CLEAN, THIRSTY),
    }
}

fn try_one<T: Allocator + Copy>(rt: &impl Abort, alloc: T, script: &str, case: Sight) {
    let Sight(steps, it, seen, legal) = case;
    let event = event_of(it, seen);
    let (done, _) = after(rt, alloc, script, steps, &event);
    check(rt, event, done, legal);
}

const B_THIRSTS: [Do; 3] = [Do::Thirst(A), Do::Hunger(A), Do::Thirst(B)];

const OF_SIGHTS: [Sight; 8] = [
    // a look and a glance see what is there, and no job glances at itself
    Sight(&[], Do::Look(A, AB), Seen::Opened, true),
    Sight(&[], Do::Look(B, AB), Seen::Opened, true),
    Sight(&[], Do::Look(A, AB), Seen::Clean, false),
    Sight(&[], Do::Glance(A, B), Seen::Idle, true),
    Sight(&[], Do::Glance(A, B), Seen::Thirsty, false),
    Sight(&B_THIRSTS, Do::Glance(A, B), Seen::Thirsty, true),
    Sight(&B_THIRSTS, Do::Glance(A, B), Seen::Idle, false),
    Sight(&[], Do::Glance(A, A), Seen::Idle, false),
];

/// The bottle is asked for, and then its job drinks and quits.
const ASKED_FOR: [Do; 8] = [
    Do::Thirst(A),
    Do::Thirst(B),
    Do::AskBottles(B, AB, 1),
    Do::Look(A, AB),
    Do::Drink(A),
    Do::Reach(A),
    Do::Act(A),
    Do::Quit(A),
];

const NOBODY: u8 = 2;

const BEYOND_THE_PLAN: [Sight; 9] = [
    Sight(&[], Do::Thirst(NOBODY), Seen::Opened, false),
    Sight(&[], Do::Sit(NOBODY), Seen::Opened, false),
    Sight(&[], Do::Act(NOBODY), Seen::Opened, false),
    Sight(&[], Do::Glance(A, NOBODY), Seen::Opened, false),
    Sight(&[], Do::Look(NOBODY, AB), Seen::Opened, false),
    Sight(&[], Do::Look(A, 1), Seen::Opened, false),
    Sight(&ASKED_FOR, Do::GiveBottles(A, AB, 0), Seen::Opened, false),
    Sight(&ASKED_FOR, Do::GiveBottles(A, AB, 3), Seen::Opened, false),
    Sight(
        &ASKED_FOR,
        Do::GiveBottles(A, AB, 0x8000_0001),
        Seen::Opened,
        false,
    ),
];

/// What is seen has to be there.
#[test]
fn sights(rt: HostRuntime) {
    for case in &OF_SIGHTS {
        try_one(&rt, rt.alloc(), TWICE, *case);
    }
}

#[test]
fn beyond_the_plan(rt: HostRuntime) {
    for case in &BEYOND_THE_PLAN {
        try_one(&rt, rt.alloc(), TWO, *case);
    }
}
