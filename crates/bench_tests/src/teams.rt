//! Threads that drive desks: how many, through which gate, and without memory. What is asked holds of every schedule.
ghost use Rattle.std.specs.Prelude.{◌<◌, length};
ghost use Rattle.turns.specs.Lists.{Each};
ghost use Rattle.edge_rule.specs.DeskView.{Owns};

use crate::gates::{ALL_MEET, FORTIETH, Meeting, NOBODY_WAITS, THREE_FIRST, TWO_MEET};
use crate::labs::{FOUR, TWO, closed, opened, plan_of, star_script};
use crate::rows::check;
use crate::words::{CLEAN_B_ASKED_BOTTLE_B_ASKED, DRINKS_HUNGRY, THIRSTY_HUNGRY};
use counting_gate::CountingGate;
use edge_rule::{Bench, CloseCause, Closed, Desk};
use instrument_log::InstrumentLog;
use lab_plan::{EdgeNo, InstrumentNo, JobNo, Plan};
use refusing_heap::RefusingHeap;
use rounds::{Ended, all_retired, are_at_rest};
use std::alloc::{Allocator, Global};
use std::process::Abort;
use std::sync::Wait;
use std::test::Fail;
use std::thread::Threads;
use workers::{Gate, Halt, Muster, NoGate, Through, finish, threads, work};

/// Threads on all desks of the bench, which come back in ascending order.
pub(crate) fn driven<R: Threads + Wait + Abort + Sync, A: Allocator + Copy + Send + Sync, G: Gate>(
    rt: &R,
    alloc: A,
    bench: &Bench<A>,
    desks: Vec<Desk<A>, A>,
    workers: u32,
    turns: u32,
    gate: &G,
) -> (Vec<Desk<A>, A>, Ended)
    requires { Each (Owns bench.now) desks.items }
    ensures { Each (Owns bench.now) result.0.items }
{
    assert!(rt; workers > 0);
    assert!(rt; bench.has_all(desks.as_slice()));
    let (desks, ended) = threads(rt, alloc, bench, desks, workers, turns, gate);
    for (place, desk) in desks.iter().enumerate() {
        assert!(rt; usize::from(desk.job().0) == place);
    }
    (desks, ended)
}

/// Each command of the log added 1.
fn counts_up<T: Allocator>(rt: &impl Abort, log: &InstrumentLog<T>) {
    for place in 0..log.len() {
        assert!(rt; log.entry(place).value as usize == place + 1);
    }
}

/// Every job ended all its sessions.
pub(crate) fn ended_all<T: Allocator>(rt: &impl Abort, left: &Closed<T>) {
    let plan = left.plan();
    for job in 0..plan.jobs() {
        let job = JobNo(job as u8);
        assert!(rt; left.retired(job) && left.sessions_done(job) == plan.sessions(job));
    }
}

/// No command is left.
pub(crate) fn are_full<T: Allocator>(rt: &impl Abort, left: &Closed<T>) {
    let plan = left.plan();
    for number in 0..plan.instruments() {
        let log = left.log(InstrumentNo(number as u8));
        assert!(rt; log.len() == log.room() && log.unfinished() == 0);
    }
}

fn turns_are<T: Allocator>(rt: &impl Abort, desks: &[Desk<T>], turns: u64) {
    for desk in desks {
        assert!(rt; desk.turns() == turns);
    }
}

/// Each job passed before each of its turns.
fn passed_each<T: Allocator>(rt: &impl Abort, desks: &[Desk<T>], gate: &CountingGate) {
    assert!(rt; gate.is_in_order());
    for desk in desks {
        assert!(rt; gate.passes(desk.job().0) == desk.turns());
    }
}

/// No turns; three; and many through a gate that counts from 1 again.
fn counts_passes<R: Threads + Wait + Abort + Sync>(rt: &R, alloc: Global, plan: &Plan) {
    let (bench, desks) = opened(rt, alloc, plan);
    let none = CountingGate::new();
    let (desks, ended) = driven(rt, alloc, &bench, desks, 2, 0, &none);
    check(rt, 1, ended, Ended::Limit);
    passed_each(rt, desks.as_slice(), &none);
    let (desks, ended) = driven(rt, alloc, &bench, desks, 2, 3, &none);
    check(rt, 2, ended, Ended::Limit);
    passed_each(rt, desks.as_slice(), &none);
    turns_are(rt, desks.as_slice(), 3);
}

/// Many turns, up to the last of them or until all jobs are retired.
fn counts_to_the_end<R: Threads + Wait + Abort + Sync>(rt: &R, alloc: Global, plan: &Plan) {
    let (bench, desks) = opened(rt, alloc, plan);
    let gate = CountingGate::new();
    let (desks, _) = driven(rt, alloc, &bench, desks, 2, 10000, &gate);
    passed_each(rt, desks.as_slice(), &gate);
}

#[test]
fn gate_counts_turns(rt: HostRuntime) {
    let plan = plan_of(&rt, rt.alloc(), FOUR);
    counts_passes(&rt, rt.alloc(), &plan);
    counts_to_the_end(&rt, rt.alloc(), &plan);
}

fn meets<R: Threads + Wait + Abort + Sync>(rt: &R, alloc: Global, plan: &Plan) {
    let (bench, desks) = opened(rt, alloc, plan);
    let gate = Meeting::new(&ALL_MEET);
    let (desks, ended) = driven(rt, alloc, &bench, desks, 2, 3, &gate);
    check(rt, 1, (gate.all_met(), ended), (true, Ended::Limit));
    turns_are(rt, desks.as_slice(), 3);
}

#[test]
fn jobs_of_two_workers_meet(rt: HostRuntime) {
    let plan = plan_of(&rt, rt.alloc(), FOUR);
    meets(&rt, rt.alloc(), &plan);
}

fn holds_out<R: Threads + Wait + Abort + Sync>(rt: &R, alloc: Global, plan: &Plan) {
    let (bench, desks) = opened(rt, alloc, plan);
    let gate = Meeting::new(&FORTIETH);
    let (desks, _) = driven(rt, alloc, &bench, desks, 2, 100_000, &gate);
    check(rt, 1, gate.all_met(), true);
    for desk in desks.as_slice() {
        assert!(rt; desk.turns() >= 3);
    }
}

/// A worker whose job waits for one that holds goes on, however many of its rounds are idle, and on a thread of its own.
#[test]
fn worker_goes_on_through_idle_rounds(rt: HostRuntime) {
    let plan = plan_of(&rt, rt.alloc(), TWO);
    holds_out(&rt, rt.alloc(), &plan);
}

fn both_begin<R: Threads + Wait + Abort + Sync>(rt: &R, alloc: Global, plan: &Plan) {
    let (bench, desks) = opened(rt, alloc, plan);
    let gate = Meeting::new(&TWO_MEET);
    let (_, ended) = driven(rt, alloc, &bench, desks, 2, 100_000, &gate);
    check(rt, 1, gate.all_met(), true);
    assert!(rt; ended == Ended::AllRetired || ended == Ended::Limit);
}

#[test]
fn two_workers_meet(rt: HostRuntime) {
    let plan = plan_of(&rt, rt.alloc(), TWO);
    both_begin(&rt, rt.alloc(), &plan);
}

/// A team at work on turns that pass no gate.
pub(crate) fn begin<R: Wait, A: Allocator>(
    rt: &R,
    bench: &Bench<A>,
    muster: &Muster,
    turns: u32,
    team: &mut [Desk<A>],
) -> Halt
    requires some { 0 < length team.old }
    requires own { Each (Owns bench.now) team.old }
    ensures { Each (Owns bench.now) team.new }
{
    work(rt, bench, &Through { gate: &NoGate }, muster, turns, team)
}

/// The turns that are left of this many.
pub(crate) fn take_rest<A: Allocator>(
    bench: &Bench<A>,
    taken: u32,
    turns: u32,
    desks: &mut [Desk<A>],
)
    requires { Each (Owns bench.now) desks.old }
    ensures { Each (Owns bench.now) desks.new }
{
    finish(bench, &Through { gate: &NoGate }, taken, turns, desks);
}

/// The desks of TWO, each of which has a team of its own; the team of the second begins once that of the first has ended. Then the turns
/// that are left are taken.
#[tactic(auto, using(crate::proofs::Owned::both_owned))]
fn one_after_another<R: Wait + Abort>(rt: &R, alloc: Global, plan: &Plan, turns: u32) {
    let (bench, mut desks) = opened(rt, alloc, plan);
    assert!(rt; desks.len() == 2);
    // One sleep is patience enough: nobody comes.
    let muster = Muster::new(2, 1);
    let (front, back) = desks.as_mut_slice().split_at_mut(1);
    let first = begin(rt, &bench, &muster, turns, front);
    let second = begin(rt, &bench, &muster, turns, back);
    let most = first.taken(0).max(second.taken(0));
    take_rest(&bench, first.taken(0), most, front);
    take_rest(&bench, second.taken(0), most, back);
    take_rest(&bench, most, turns, desks.as_mut_slice());
    are_at_rest(desks.as_slice());
    if !all_retired(desks.as_slice()) {
        turns_are(rt, desks.as_slice(), u64::from(turns));
        assert!(rt; turns < ENOUGH);
    }
    // Nobody goes on once all are retired, however many turns are left.
    for desk in desks.as_slice() {
        assert!(rt; desk.turns() <= u64::from(ENOUGH));
    }
    let left = closed(rt, alloc, bench, desks);
    all_count_up(rt, &left);
}

/// This many turns are enough for the jobs of TWO: nine by rounds, after four of the first team, which stops after its second idle one.
const ENOUGH: u32 = 13;

#[test]
fn teams_that_never_begin(rt: HostRuntime) {
    let plan = plan_of(&rt, rt.alloc(), TWO);
    for turns in 0..21 {
        one_after_another(&rt, rt.alloc(), &plan, turns);
    }
    one_after_another(&rt, rt.alloc(), &plan, 1_000_000_000);
}

/// A job waits at the gate before its turn, and not after it: so a finds what b asked for in its first turn, gives it, and asks for it again.
fn passes_before<R: Threads + Wait + Abort + Sync>(rt: &R, alloc: Global, plan: &Plan) {
    let (bench, desks) = opened(rt, alloc, plan);
    let gate = Meeting::new(&THREE_FIRST);
    let (desks, ended) = driven(rt, alloc, &bench, desks, 2, 4, &gate);
    check(rt, 1, (gate.all_met(), ended), (true, Ended::Limit));
    let left = closed(rt, alloc, bench, desks);
    assert!(rt; left.plan().jobs() == 2 && left.plan().edges() == 1);
    check(
        rt,
        2,
        left.edge(EdgeNo(0)).pack(),
        CLEAN_B_ASKED_BOTTLE_B_ASKED,
    );
    check(rt, 3, left.phase(JobNo(0)).pack(), THIRSTY_HUNGRY);
    check(rt, 4, left.phase(JobNo(1)).pack(), DRINKS_HUNGRY);
}

#[test]
fn gate_comes_before_turn(rt: HostRuntime) {
    let plan = plan_of(&rt, rt.alloc(), TWO);
    passes_before(&rt, rt.alloc(), &plan);
}

/// A bench and its desks; if an allocation failed, from a second call.
fn opened_at_last<'p, A: Allocator + Copy>(
    rt: &impl Abort,
    alloc: A,
    plan: &'p Plan<A>,
) -> (Bench<'p, A>, Vec<Desk<A>, A>)
    ensures { Each (Owns result.0) result.1.items }
{
    match Bench::open(alloc, plan) {
        Ok(made) => made,
        Err(_) => opened(rt, alloc, plan),
    }
}

/// Three turns of each desk by two workers. If an allocation failed no desk has taken any, and a second call takes them.
fn driven_at_last<R: Threads + Wait + Abort + Sync, A: Allocator + Copy + Send + Sync>(
    rt: &R,
    alloc: A,
    bench: &Bench<A>,
    desks: Vec<Desk<A>, A>,
) -> Vec<Desk<A>, A>
    requires { Each (Owns bench.now) desks.items }
    ensures { Each (Owns bench.now) result.items }
{
    let gate = Meeting::new(&NOBODY_WAITS);
    let (desks, ended) = driven(rt, alloc, bench, desks, 2, 3, &gate);
    if ended == Ended::Limit {
        turns_are(rt, desks.as_slice(), 3);
        return desks;
    }
    check(rt, 1, ended, Ended::NoMemory);
    turns_are(rt, desks.as_slice(), 0);
    let (desks, again) = driven(rt, alloc, bench, desks, 2, 3, &gate);
    check(rt, 2, again, Ended::Limit);
    turns_are(rt, desks.as_slice(), 3);
    desks
}

/// What is left of the bench; if an allocation failed, from a second call.
fn closed_at_last<'p, A: Allocator + Copy>(
    rt: &impl Abort,
    alloc: A,
    bench: Bench<'p, A>,
    desks: Vec<Desk<A>, A>,
) -> Closed<'p, A>
    requires { Each (Owns bench) desks.items }
{
    match bench.close(alloc, desks) {
        Ok(left) => left,
        Err(refused) => {
            check(rt, 1, refused.cause, CloseCause::NoMemory);
            closed(rt, alloc, refused.bench, refused.desks)
        }
    }
}

pub(crate) fn all_count_up<T: Allocator>(rt: &impl Abort, left: &Closed<T>) {
    let plan = left.plan();
    for number in 0..plan.instruments() {
        counts_up(rt, left.log(InstrumentNo(number as u8)));
    }
}

/// How many allocations were asked for until the plan was read, the bench was open, its desks were driven, and it was closed.
type Allocations = [u64; 4];

/// A run on a heap that refuses this allocation.
fn run_without<R: Threads + Wait + Abort + Sync>(
    rt: &R,
    alloc: Global,
    script: &str,
    refused: u64,
) -> Allocations {
    let heap = RefusingHeap::new(alloc, refused);
    let plan = plan_of(rt, &heap, script);
    let read = heap.allocations();
    let (bench, desks) = opened_at_last(rt, &heap, &plan);
    let open = heap.allocations();
    let desks = driven_at_last(rt, &heap, &bench, desks);
    let driven = heap.allocations();
    let left = closed_at_last(rt, &heap, bench, desks);
    all_count_up(rt, &left);
    [read, open, driven, heap.allocations()]
}

/// Each allocation of an opening, of the workers' call and of a closing is refused in turn, and the refused call is made again. Few desks are
/// sorted without an allocation; here are 32.
#[test]
fn allocations_of_a_bench_and_its_workers(rt: HostRuntime) -> Result<(), Fail> {
    let script = star_script(rt.alloc())?;
    let [read, open, driven, all] = run_without(&rt, rt.alloc(), &script, 0);
    assert!(rt; read < open && open < driven && driven < all);
    for number in read..all {
        let [_, _, _, more] = run_without(&rt, rt.alloc(), &script, number + 1);
        assert!(rt; more > all, "allocation {number}");
    }
    Ok(())
}
