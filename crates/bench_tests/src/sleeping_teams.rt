//! Workers that sleep while one is held up at its gate. Where they sleep by a bell of the test's, a sleep may take a minute, as long as a
//! test has: so it doesn't end if one that sleeps isn't woken.
ghost use Rattle.turns.specs.Lists.{Each};
ghost use Rattle.edge_rule.specs.DeskView.{Owns};

use crate::labs::{FOUR, TWO, closed, opened, plan_of};
use crate::sleepers::{HOLDS, MINUTE, most_turns};
use crate::teams::{all_count_up, are_full, driven, ended_all};
use bell::Bell;
use edge_rule::{Bench, Desk};
use lab_plan::{JobNo, Plan};
use rounds::Ended;
use std::alloc::Global;
use std::process::Abort;
use std::rt::Clock;
use std::slice::from_mut;
use std::sync::Wait;
use std::thread::{Threads, for_each_mut, sleep};
use std::time::Duration;
use workers::{Gate, Muster, Through, work};

/// Holds the first job up before its third turn.
#[derive(Drop)]
struct Holding<'w, R> {
    rt: &'w R,
}

impl<R: Clock + Sync> Gate for Holding<'_, R> {
    fn pass(&self, job: JobNo, turn: u64) {
        if job.0 == 0 && turn == 3 {
            sleep(self.rt, Duration::from_millis(HOLDS));
        }
    }
}

/// While one job is held up the others' worker takes few turns: some two hundred, and then it sleeps.
const FEW: u64 = 4000;

fn holds_up<R: Threads + Wait + Clock + Abort + Sync>(
    rt: &R,
    alloc: Global,
    plan: &Plan,
    workers: u32,
) {
    let (bench, desks) = opened(rt, alloc, plan);
    let gate = Holding { rt };
    let (desks, ended) = driven(rt, alloc, &bench, desks, workers, 1_000_000, &gate);
    assert!(rt; ended == Ended::AllRetired);
    let most = most_turns(desks.as_slice());
    assert!(rt; most < FEW, "{most} turns");
}

#[test]
fn worker_that_waits_takes_few_turns(rt: HostRuntime) {
    for (script, workers) in [(TWO, 2), (FOUR, 4)] {
        let plan = plan_of(&rt, rt.alloc(), script);
        holds_up(&rt, rt.alloc(), &plan, workers);
    }
}

/// A team for each desk, by one muster. The first takes so many turns, and each other so many.
#[derive(Drop)]
struct Teams<'w, R> {
    rt: &'w R,
    muster: &'w Muster,
    first: u32,
    others: u32,
}

/// A team that has one desk.
#[tactic(auto, using(crate::proofs::Owned::one_kept))]
fn works<R: Wait + Clock + Sync>(teams: &Teams<'_, R>, bench: &Bench, desk: &mut Desk)
    requires own { Owns bench.now desk.old }
    ensures { Owns bench.now desk.new }
{
    let turns = if desk.job().0 == 0 {
        teams.first
    } else {
        teams.others
    };
    let gate = Holding { rt: teams.rt };
    let _ = work(
        teams.rt,
        bench,
        &Through { gate: &gate },
        teams.muster,
        turns,
        from_mut(desk),
    );
}

/// All teams, each on a thread of its own.
fn all_work<R: Threads + Wait + Clock + Sync>(
    rt: &R,
    bench: &Bench,
    desks: &mut [Desk],
    teams: &Teams<'_, R>,
)
    requires own { Each (Owns bench.now) desks.old }
    ensures own { Each (Owns bench.now) desks.new }
{
    let threads = desks.len();
    if threads == 0 {
        return;
    }
    for_each_mut(
        rt,
        desks,
        threads,
        &|_place: usize, desk: &mut Desk|
            requires { Owns bench.now desk.now }
            ensures { Owns bench.entry.now desk.exit.now }
        { works(teams, bench, desk) },
    );
}

/// More turns than any wait takes if threads run side by side.
const TURNS: u32 = 1_000_000;

/// Teams that sleep until they are woken, to the end of the run.
fn teams_to_the_end<R: Threads + Wait + Clock + Abort + Sync>(rt: &R, alloc: Global, plan: &Plan) {
    let (bench, mut desks) = opened(rt, alloc, plan);
    let muster = Muster::with_bell(plan.jobs() as u32, 1, Bell::with_longest(MINUTE));
    let teams = Teams {
        rt,
        muster: &muster,
        first: TURNS,
        others: TURNS,
    };
    all_work(rt, &bench, desks.as_mut_slice(), &teams);
    let left = closed(rt, alloc, bench, desks);
    ended_all(rt, &left);
    are_full(rt, &left);
    all_count_up(rt, &left);
}

#[test]
fn sleeping_teams_are_woken(rt: HostRuntime) {
    for script in [TWO, FOUR] {
        let plan = plan_of(&rt, rt.alloc(), script);
        for _ in 0..10 {
            teams_to_the_end(&rt, rt.alloc(), &plan);
        }
    }
}

/// More turns than a team takes before it sleeps. Few, because each yields, and on a busy machine that may take as long as all others
/// there run before this thread comes again: some hundredths of a second.
const OTHERS: u32 = 300;

/// The first team takes few turns and ends. What the others wait for never comes, and so they don't sleep any more: each takes all its turns.
fn turns_pass<R: Threads + Wait + Clock + Abort + Sync>(
    rt: &R,
    alloc: Global,
    plan: &Plan,
    first: u32,
) {
    let (bench, mut desks) = opened(rt, alloc, plan);
    let muster = Muster::with_bell(plan.jobs() as u32, 1, Bell::with_longest(MINUTE));
    let teams = Teams {
        rt,
        muster: &muster,
        first,
        others: OTHERS,
    };
    all_work(rt, &bench, desks.as_mut_slice(), &teams);
    for desk in desks.as_slice() {
        let wanted = if desk.job().0 == 0 {
            u64::from(first)
        } else {
            u64::from(OTHERS)
        };
        assert!(rt; desk.turns() == wanted);
    }
}

#[test]
fn nobody_sleeps_once_a_team_has_ended(rt: HostRuntime) {
    for (script, firsts) in [(TWO, [0, 3]), (FOUR, [1, 2])] {
        let plan = plan_of(&rt, rt.alloc(), script);
        for first in firsts {
            turns_pass(&rt, rt.alloc(), &plan, first);
        }
    }
}
