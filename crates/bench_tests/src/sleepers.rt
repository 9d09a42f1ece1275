//! Runs in which all sleep while one holds what they need. A sleep may take a minute, as long as a test has: so it doesn't end if one that
//! sleeps isn't woken. Each thread is held up now and then after a turn: after what it did, before it wakes the others, and after its last
//! idle look, before it sleeps.
ghost use Rattle.edge_rule.specs.DeskView.{Owns};
ghost use Rattle.desk_user.specs.Use.{Keeps};

use crate::labs::{closed, opened, plan_of};
use crate::teams::{all_count_up, are_full, ended_all};
use desk_user::{
    Bell, How, Owner, Pause, Until, is_at, on_threads, take_turn, turns_until_all_retired,
};
use edge_rule::{Bench, Desk};
use lab_plan::Plan;
use std::alloc::{Allocator, Global};
use std::hint::spin_loop;
use std::process::Abort;
use std::rt::Clock;
use std::sync::Wait;
use std::thread::{Threads, sleep};
use std::time::Duration;

const PAIR: &str = "lab 1\njob a\nsession\nscale add 1\nend\njob b\nsession\nscale add 1\nend\n";

const FIVE: &str =
    "lab 1\njob a\nsession\nscale add 1\nend\njob b\nsession\nscale add 1\nend\njob c\nsession\nscale add 1\nend
job d\nsession\nscale add 1\nend\njob e\nsession\nscale add 1\nend\n";

/// More turns than any wait takes if threads run side by side.
const TURNS: u32 = 1_000_000;

/// The owners of the desks of one run, which are held up at moments that the seed chooses.
#[derive(Drop)]
struct Sleepers<'w, R> {
    rt: &'w R,
    bell: &'w Bell,
    seed: u64,
    /// How long each holds its instruments, in milliseconds.
    holds: u64,
}

impl<R> Sleepers<'_, R> {
    /// One in four times some microseconds.
    fn hold_up(&self, job: u8, turns: u64) {
        let number = self.seed ^ (turns << 8) ^ u64::from(job);
        let mixed = number.wrapping_mul(0x9e37_79b9_7f4a_7c15) >> 32;
        if mixed % 4 == 0 {
            for _ in 0..mixed >> 20 {
                spin_loop();
            }
        }
    }
}

/// As `desk_user::turns_until`, but the thread is held up.
fn turns_held<R: Wait, A: Allocator>(
    sleepers: &Sleepers<'_, R>,
    bench: &Bench<A>,
    desk: &mut Desk<A>,
    until: Until,
    waiting: &mut Pause<'_, R>,
) -> bool
    requires own { Owns bench.now desk.old }
    ensures { Keeps bench.now desk.old desk.new }
{
    for _number in 0..TURNS {
        if is_at(bench, desk, until) {
            return true;
        }
        let turned = take_turn(bench, desk);
        sleepers.hold_up(desk.job().0, desk.turns());
        waiting.after(turned);
    }
    false
}

impl<R: Wait + Clock + Sync> Owner for Sleepers<'_, R> {
    fn work<A: Allocator>(&self, bench: &Bench<A>, desk: &mut Desk<A>) {
        let mut waiting = Pause::new(How::Sleep, self.rt, self.bell);
        if turns_held(self, bench, desk, Until::Holds, &mut waiting) {
            // All others fall asleep.
            sleep(self.rt, Duration::from_millis(self.holds));
        }
        if turns_held(self, bench, desk, Until::Retired, &mut waiting) {
            let _ = turns_until_all_retired(bench, desk, TURNS, &mut waiting);
        }
    }
}

/// The longest sleep, in milliseconds.
pub(crate) const MINUTE: u64 = 60_000;

/// A run to its end. Answers the most turns that a job took.
fn sleeps_to_the_end<R: Threads + Wait + Clock + Abort + Sync>(
    rt: &R,
    alloc: Global,
    plan: &Plan,
    seed: u64,
    holds: u64,
) -> u64 {
    let (bench, mut desks) = opened(rt, alloc, plan);
    let bell = Bell::with_longest(MINUTE);
    let sleepers = Sleepers {
        rt,
        bell: &bell,
        seed,
        holds,
    };
    on_threads(rt, &bench, desks.as_mut_slice(), &sleepers);
    let most = most_turns(desks.as_slice());
    let left = closed(rt, alloc, bench, desks);
    ended_all(rt, &left);
    are_full(rt, &left);
    all_count_up(rt, &left);
    most
}

pub(crate) fn most_turns(desks: &[Desk]) -> u64 {
    let mut most = 0u64;
    for desk in desks {
        most = most.max(desk.turns());
    }
    most
}

const RUNS: u64 = 500;

/// A thousand runs, by two threads and by five.
#[test]
fn all_sleep_and_none_hangs(rt: HostRuntime) {
    for script in [PAIR, FIVE] {
        let plan = plan_of(&rt, rt.alloc(), script);
        for seed in 0..RUNS {
            sleeps_to_the_end(&rt, rt.alloc(), &plan, seed, 1);
        }
    }
}

/// How long one holds while turns are counted: a thread that doesn't sleep takes more than ten thousand meanwhile.
pub(crate) const HOLDS: u64 = 200;

/// Whoever waits for one that holds takes few turns: some two hundred after each that does something, and then it sleeps.
const FEW: u64 = 4000;

#[test]
fn who_waits_takes_few_turns(rt: HostRuntime) {
    for script in [PAIR, FIVE] {
        let plan = plan_of(&rt, rt.alloc(), script);
        let most = sleeps_to_the_end(&rt, rt.alloc(), &plan, 0, HOLDS);
        assert!(rt; most < FEW, "{most} turns");
    }
}
