//! Teams that no gate holds up: they stop once one waits in vain, and jobs that share much are driven by one.
ghost use Rattle.turns.specs.Lists.{Each};
ghost use Rattle.edge_rule.specs.DeskView.{Owns};

use crate::gates::{Meeting, TWO_MEET, Wait as Waits};
use crate::labs::{APART, FOUR, TWO, closed, opened, plan_of};
use crate::rows::check;
use crate::teams::{all_count_up, are_full, begin, driven, ended_all, take_rest};
use lab_plan::{JobNo, Plan};
use rounds::{Ended, are_at_rest};
use std::alloc::Global;
use std::process::Abort;
use std::sync::Wait;
use std::sync::atomic::{AtomicU64, Ordering};
use std::thread::Threads;
use workers::{Gate, Muster, NoGate};

/// A team acts at most this often before it waits for one that hasn't begun, or has stopped.
const FEW: u32 = 20;

/// How many more rounds are idle than not before a team stops.
const VAIN: u32 = 200;

const TURNS: u32 = 1_000_000;

/// The desks of TWO, each of which has a team of its own. That of b waits in vain for a's, which then stops after its first idle round.
#[tactic(auto, using(crate::proofs::Owned::both_owned))]
fn stops_in_vain<R: Wait + Abort>(rt: &R, alloc: Global, plan: &Plan) {
    let (bench, mut desks) = opened(rt, alloc, plan);
    assert!(rt; desks.len() == 2);
    let muster = Muster::hurried(2);
    let (front, back) = desks.as_mut_slice().split_at_mut(1);
    let second = begin(rt, &bench, &muster, TURNS, back).taken(TURNS);
    let first = begin(rt, &bench, &muster, TURNS, front).taken(TURNS);
    assert!(rt; VAIN <= second && second <= VAIN + FEW, "{second} turns");
    assert!(rt; 1 <= first && first <= FEW, "{first} turns");
    take_rest(&bench, first, second, front);
    take_rest(&bench, second, TURNS, desks.as_mut_slice());
    are_at_rest(desks.as_slice());
    let left = closed(rt, alloc, bench, desks);
    ended_all(rt, &left);
    are_full(rt, &left);
}

#[test]
fn team_that_waits_in_vain_stops(rt: HostRuntime) {
    let plan = plan_of(&rt, rt.alloc(), TWO);
    stops_in_vain(&rt, rt.alloc(), &plan);
}

/// The same, but a's team begins. It has all that it needs, ends its session, and leaves b's at work, which waits as long as if a's were there.
#[tactic(auto, using(crate::proofs::Owned::both_owned))]
fn leaves_others_at_work<R: Wait + Abort>(rt: &R, alloc: Global, plan: &Plan) {
    let (bench, mut desks) = opened(rt, alloc, plan);
    assert!(rt; desks.len() == 2);
    let muster = Muster::hurried(2);
    let (front, back) = desks.as_mut_slice().split_at_mut(1);
    let first = begin(rt, &bench, &muster, TURNS, front).taken(TURNS);
    let second = begin(rt, &bench, &muster, TURNS, back).taken(TURNS);
    assert!(rt; 1 <= first && first <= FEW, "{first} turns");
    assert!(rt; VAIN <= second && second <= VAIN + FEW, "{second} turns");
}

#[test]
fn team_whose_jobs_are_retired_leaves_others_at_work(rt: HostRuntime) {
    let plan = plan_of(&rt, rt.alloc(), TWO);
    leaves_others_at_work(&rt, rt.alloc(), &plan);
}

/// Holds nobody up, and sees whether the turns of four jobs came one of each a round, in ascending order.
#[derive(Drop)]
struct InRounds {
    passes: AtomicU64,
    wrong: AtomicU64,
}

impl Gate for InRounds {
    fn pass(&self, job: JobNo, _turn: u64) {
        if self.passes.fetch_add(1, Ordering::SeqCst) % 4 != u64::from(job.0) {
            self.wrong.store(1, Ordering::SeqCst);
        }
    }

    fn holds_up(&self) -> bool {
        false
    }
}

fn is_driven_by_one<R: Threads + Wait + Abort + Sync>(rt: &R, alloc: Global, plan: &Plan) {
    let (bench, desks) = opened(rt, alloc, plan);
    let gate = InRounds {
        passes: AtomicU64::new(0),
        wrong: AtomicU64::new(0),
    };
    let (desks, ended) = driven(rt, alloc, &bench, desks, 4, TURNS, &gate);
    check(rt, 1, ended, Ended::AllRetired);
    check(rt, 2, gate.wrong.load(Ordering::SeqCst), 0);
    let left = closed(rt, alloc, bench, desks);
    ended_all(rt, &left);
    all_count_up(rt, &left);
}

/// Each two of the four jobs share an instrument.
#[test]
fn jobs_that_share_much_are_driven_by_one(rt: HostRuntime) {
    let plan = plan_of(&rt, rt.alloc(), FOUR);
    is_driven_by_one(&rt, rt.alloc(), &plan);
}

/// Says that it holds nobody up, though jobs of two workers meet there: so it sees that both have threads.
#[derive(Drop)]
struct Light {
    meeting: Meeting,
}

impl Light {
    fn new(waits: &'static [Waits]) -> Light {
        Light {
            meeting: Meeting::new(waits),
        }
    }
}

impl Gate for Light {
    fn pass(&self, job: JobNo, turn: u64) {
        self.meeting.pass(job, turn)
    }

    fn holds_up(&self) -> bool {
        false
    }
}

fn has_threads<R: Threads + Wait + Abort + Sync>(rt: &R, alloc: Global, plan: &Plan) {
    let (bench, desks) = opened(rt, alloc, plan);
    let gate = Light::new(&TWO_MEET);
    let (desks, ended) = driven(rt, alloc, &bench, desks, 2, TURNS, &gate);
    check(
        rt,
        1,
        (gate.meeting.all_met(), ended),
        (true, Ended::AllRetired),
    );
    let left = closed(rt, alloc, bench, desks);
    ended_all(rt, &left);
    are_full(rt, &left);
}

#[test]
fn jobs_that_share_nothing_have_threads(rt: HostRuntime) {
    let plan = plan_of(&rt, rt.alloc(), APART);
    has_threads(&rt, rt.alloc(), &plan);
}

/// Whoever says nothing may be held up.
#[test]
fn gates_hold_up_unless_they_say_no(rt: HostRuntime) {
    check(
        &rt,
        1,
        (NoGate.holds_up(), Meeting::new(&TWO_MEET).holds_up()),
        (false, true),
    );
}
