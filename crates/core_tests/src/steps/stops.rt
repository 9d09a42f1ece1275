//! A replay of events stops at the first that isn't legal, and the world stands before it. Replays of steps are in `checks/cases`
//! (`of_labrun/replays.py`).
use super::{OPENED, OPENED_EDGE, Shown, Way, after, replayed};
use crate::benches::{A, B, Do, STALE_MARK, TWICE, TWO, event_seen, stage, step_of};
use crate::rows::check;
use interleaving::{Dining, Drinking, EdgeState, End, Event, JobState, NotLegal};
use lab_plan::JobNo;
use std::alloc::Allocator;
use std::process::Abort;

/// The job sits before it has seen that the fork is here.
const HASTY: [Event; 3] = [
    Event::Thirst(JobNo(A)),
    Event::Hunger(JobNo(A)),
    Event::Sit(JobNo(A)),
];

const HUNGERS: Shown = Shown {
    a: JobState {
        dining: Dining::Hungry,
        drinking: Drinking::Thirsty,
        session: 1,
        position: 0,
    },
    ..OPENED
};

#[test]
fn illegal_step(rt: HostRuntime) {
    let done = replayed(&rt, rt.alloc(), TWO, Way::Events(&HASTY));
    check(&rt, 3, done == (Err((2, NotLegal)), HUNGERS), true);
    let legal = replayed(&rt, rt.alloc(), TWO, Way::Events(&HASTY[..2]));
    check(&rt, 2, legal == (Ok(2), HUNGERS), true);
}

/// The edge once b asked for the fork.
const ASKED_EDGE: EdgeState = EdgeState {
    token: End::Lower,
    ..OPENED_EDGE
};

/// The event of the stale mark's step at this place, with what is seen: a looks once before the request, and then twice after it.
fn event_at(place: usize, it: Do) -> Event {
    let edge = if place < stage::B_ASKS {
        OPENED_EDGE
    } else {
        ASKED_EDGE
    };
    event_seen(step_of(it), edge, JobState::IDLE)
}

/// The events of the first 16 steps of the stale mark, with `act b` put in after this many of them.
fn with_act_of_b(place: usize) -> [Event; 17] {
    let mut events = [Event::Act(JobNo(B)); 17];
    for index in 0..16 {
        let at = if index < place { index } else { index + 1 };
        events[at] = event_at(index, STALE_MARK[index]);
    }
    events
}

/// Job b never reaches in those steps: the replay stops at its entry, after the steps before it.
fn stops_at<T: Allocator + Copy>(rt: &impl Abort, alloc: T, place: usize) {
    assert!(rt; place <= STALE_MARK.len());
    let act = Event::Act(JobNo(B));
    let (done, stays) = after(rt, alloc, TWICE, &STALE_MARK[..place], &act);
    check(rt, place, done, false);
    let events = with_act_of_b(place);
    let came = replayed(rt, alloc, TWICE, Way::Events(&events));
    let stopped = (Err((place, NotLegal)), stays);
    check(rt, place, came == stopped, true);
}

#[test]
fn stops_where_it_acts_too_soon(rt: HostRuntime) {
    for place in 0..17 {
        stops_at(&rt, rt.alloc(), place);
    }
}
