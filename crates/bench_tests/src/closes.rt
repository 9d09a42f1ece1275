//! Benches that are closed: what they leave, and desks that are missing.
ghost use Rattle.std.specs.Prelude.{◌≡◌, ◌++◌, ◌∷◌, []};
ghost use Rattle.turns.specs.Lists.{Each};
ghost use Rattle.edge_rule.specs.DeskView.{Owns};

use crate::desks::{A, AB, AC, B, BC, C, both};
use crate::labs::{NOBODY, THREE, TWO, opened, plan_of};
use crate::lines::Answer::{Added, Far, Word};
use crate::lines::Call::{Look, Store, Try};
use crate::lines::Move::AllDue;
use crate::lines::{Call, Line, do_all, entry_of};
use crate::rows::check;
use crate::words::{
    DIRTY_A_BOTTLE_A_ASKED, DIRTY_A_BOTTLE_B, DIRTY_B_BOTTLE_B, DRINKS, DRINKS_ONE_DONE, OPEN,
    OPEN_OF_THREE, RETIRED, THIRSTY, TRANQUIL, edge, phase,
};
use edge_rule::PhaseEvent::{Quit, Retire, Thirst};
use edge_rule::{Bench, CloseCause, Closed, Counts, Desk, PhaseEvent};
use instrument_log::InstrumentLog;
use lab_plan::{EdgeNo, InstrumentNo, JobNo, Plan};
use rounds::{Ended, rounds};
use std::alloc::Allocator;
use std::process::Abort;

/// What a bench leaves: the words of its edges; for each job its phase word, what it did, and whether it is retired;
/// and of the entries in the first instrument's log, each of the one command of a session, its job and value.
pub(crate) struct Left {
    edges: &'static [u64],
    jobs: &'static [(u64, Counts, bool)],
    entries: &'static [(u8, u32)],
}

fn edge_of<T: Allocator>(rt: &impl Abort, closed: &Closed<T>, number: usize) -> u64 {
    assert!(rt; number < closed.plan().edges() as usize);
    closed.edge(EdgeNo(number as u16)).pack()
}

fn job_of<T: Allocator>(rt: &impl Abort, closed: &Closed<T>, number: usize) -> (u64, Counts, bool) {
    assert!(rt; number < closed.plan().jobs());
    let job = JobNo(number as u8);
    let counts = Counts {
        meals: closed.meals(job),
        sessions_done: closed.sessions_done(job),
        withdrawn: closed.withdrawn(job),
    };
    (closed.phase(job).pack(), counts, closed.retired(job))
}

fn has_entries<T: Allocator>(log: &InstrumentLog<T>, wanted: &[(u8, u32)]) -> bool {
    if log.len() != wanted.len() {
        return false;
    }
    for number in 0..log.len() {
        let (job, value) = wanted[number];
        if log.entry(number) != entry_of(JobNo(job), value) {
            return false;
        }
    }
    true
}

fn check_log<T: Allocator>(rt: &impl Abort, closed: &Closed<T>, wanted: &[(u8, u32)]) {
    assert!(rt; closed.plan().instruments() > 0);
    assert!(rt; has_entries(closed.log(InstrumentNo(0)), wanted));
}

pub(crate) fn check_left<T: Allocator>(rt: &impl Abort, closed: &Closed<T>, wanted: &Left) {
    let plan = closed.plan();
    assert!(rt; plan.edges() as usize == wanted.edges.len());
    assert!(rt; plan.jobs() == wanted.jobs.len());
    for number in 0..wanted.edges.len() {
        let (left, word) = (edge_of(rt, closed, number), wanted.edges[number]);
        let (came, want) = (edge(left), edge(word));
        assert!(rt;
            left == word,
            "edge {number}: {want:?} was wanted, not {came:?}"
        );
    }
    for number in 0..wanted.jobs.len() {
        let (left, job) = (job_of(rt, closed, number), wanted.jobs[number]);
        let (came, want) = (phase(left.0), phase(job.0));
        assert!(rt;
            left.0 == job.0,
            "job {number}: {want:?} was wanted, not {came:?}"
        );
        assert!(rt;
            left == job,
            "job {number}: {job:?} was wanted, not {left:?}"
        );
    }
    if !wanted.jobs.is_empty() {
        check_log(rt, closed, wanted.entries);
    }
}

fn closed<'p, T: Allocator>(
    rt: &impl Abort,
    alloc: T,
    bench: Bench<'p, T>,
    desks: Vec<Desk<T>, T>,
) -> Closed<'p, T>
    requires own { Each (Owns bench) desks.items }
{
    match bench.close(alloc, desks) {
        Ok(closed) => closed,
        Err(_) => panic!(rt; "not closed"),
    }
}

/// Calls on a bench, which is then closed with the second allocator, and if memory is refused, with the first.
/// What is left is the same. Answers whether the first close did.
pub(crate) fn closes<T: Allocator + Copy>(
    rt: &impl Abort,
    alloc: T,
    small: T,
    script: &str,
    lines: &[Line],
    wanted: &Left,
) -> bool {
    let plan = plan_of(rt, alloc, script);
    let (bench, mut desks) = opened(rt, alloc, &plan);
    do_all(rt, &bench, desks.as_mut_slice(), lines);
    assert!(rt; bench.has_all(desks.as_slice()));
    match bench.close(small, desks) {
        Ok(closed) => {
            check_left(rt, &closed, wanted);
            true
        }
        Err(refused) => {
            check(rt, 1, refused.cause, CloseCause::NoMemory);
            check_left(rt, &closed(rt, alloc, refused.bench, refused.desks), wanted);
            false
        }
    }
}

const NOTHING_DONE: Counts = Counts {
    meals: 0,
    sessions_done: 0,
    withdrawn: 0,
};

const ONE_SESSION: Counts = Counts {
    meals: 0,
    sessions_done: 1,
    withdrawn: 0,
};

/// A bench for two jobs on which nothing was done.
const UNTOUCHED: Left = Left {
    edges: &[OPEN],
    jobs: &[(0, NOTHING_DONE, false), (0, NOTHING_DONE, false)],
    entries: &[],
};

/// Job a has its session and retires, and gives its bottle to b, which does the same. Nobody eats.
pub(crate) const BOTH_DRINK: [Line; 16] = [
    (A, Store(Thirst), Far(THIRSTY)),
    (A, Look(AB), Word(OPEN)),
    (A, Store(PhaseEvent::Drink), Far(DRINKS)),
    (A, Call::Command, Added(A, 1)),
    (A, Call::Phase, Far(DRINKS_ONE_DONE)),
    (A, Store(Quit), Far(TRANQUIL)),
    (A, Store(Retire), Far(RETIRED)),
    (B, Store(Thirst), Far(THIRSTY)),
    (B, Try(AllDue, AB), Word(DIRTY_A_BOTTLE_A_ASKED)),
    (A, Look(AB), Word(DIRTY_A_BOTTLE_A_ASKED)),
    (A, Try(AllDue, AB), Word(DIRTY_A_BOTTLE_B)),
    (B, Look(AB), Word(DIRTY_A_BOTTLE_B)),
    (B, Store(PhaseEvent::Drink), Far(DRINKS)),
    (B, Call::Command, Added(B, 2)),
    (B, Store(Quit), Far(TRANQUIL)),
    (B, Store(Retire), Far(RETIRED)),
];

pub(crate) const BOTH_DRANK: Left = Left {
    edges: &[DIRTY_A_BOTTLE_B],
    jobs: &[(RETIRED, ONE_SESSION, true), (RETIRED, ONE_SESSION, true)],
    entries: &[(0, 1), (1, 2)],
};

/// Of three jobs the last has begun its session, and asked for the bottles of one edge.
const ONE_THIRSTY: [Line; 3] = [
    (C, Store(Thirst), Far(THIRSTY)),
    (C, Look(BC), Word(OPEN_OF_THREE)),
    (C, Try(AllDue, BC), Word(DIRTY_A_BOTTLE_A_ASKED)),
];

const ONE_BEGAN: Left = Left {
    edges: &[OPEN_OF_THREE, OPEN_OF_THREE, DIRTY_A_BOTTLE_A_ASKED],
    jobs: &[
        (0, NOTHING_DONE, false),
        (0, NOTHING_DONE, false),
        (THIRSTY, NOTHING_DONE, false),
    ],
    entries: &[],
};

const NOTHING: Left = Left {
    edges: &[],
    jobs: &[],
    entries: &[],
};

/// A script, what is done there, and what is left.
const CLOSES: [(&str, &[Line], &Left); 4] = [
    (TWO, &[], &UNTOUCHED),
    (TWO, &BOTH_DRINK, &BOTH_DRANK),
    (THREE, &ONE_THIRSTY, &ONE_BEGAN),
    (NOBODY, &[], &NOTHING),
];

#[test]
fn closed_benches(rt: HostRuntime) {
    let alloc = rt.alloc();
    for (script, lines, wanted) in &CLOSES {
        check(
            &rt,
            1,
            closes(&rt, alloc, alloc, script, lines, wanted),
            true,
        );
    }
}

/// The bench and the desks come back if not all of them are there.
fn kept_open<'p, T: Allocator>(
    rt: &impl Abort,
    alloc: T,
    bench: Bench<'p, T>,
    desks: Vec<Desk<T>, T>,
) -> (Bench<'p, T>, Vec<Desk<T>, T>)
    requires own { Each (Owns bench) desks.items }
    ensures { (result.0 ≡ bench.entry) × (result.1.items ≡ desks.items) }
{
    match bench.close(alloc, desks) {
        Ok(_) => panic!(rt; "closed"),
        Err(refused) => {
            check(rt, 1, refused.cause, CloseCause::NotEveryDesk);
            (refused.bench, refused.desks)
        }
    }
}

fn with_one_more<T: Allocator>(
    rt: &impl Abort,
    mut desks: Vec<Desk<T>, T>,
    desk: Desk<T>,
) -> Vec<Desk<T>, T>
    ensures { result.items ≡ desks.items ++ desk ∷ [] }
{
    match desks.push(desk) {
        Ok(()) => desks,
        Err(_) => panic!(rt; "no memory"),
    }
}

/// A bench isn't closed with the first desk alone, and is with the second behind it.
fn closes_with_both<'p, T: Allocator + Copy>(
    rt: &impl Abort,
    alloc: T,
    bench: Bench<'p, T>,
    first: Desk<T>,
    second: Desk<T>,
    wanted: &Left,
)
    requires own { Owns bench first × Owns bench second }
{
    let job = first.job();
    let one = with_one_more(rt, Vec::new(alloc), first);
    let (bench, one) = kept_open(rt, alloc, bench, one);
    assert!(rt; one.len() == 1 && one[0].job() == job);
    let two = with_one_more(rt, one, second);
    check_left(rt, &closed(rt, alloc, bench, two), wanted);
}

/// This many rounds at most, which the jobs end before.
fn take_turns<T: Allocator>(
    rt: &impl Abort,
    bench: &Bench<T>,
    desks: &mut [Desk<T>],
    limit: u32,
    wanted: (Ended, u32),
)
    requires own { Each (Owns bench.now) desks.old }
    ensures { Each (Owns bench.now) desks.new }
{
    assert!(rt; bench.has_all(desks));
    assert!(rt; rounds(bench, desks, limit) == wanted);
}

/// The bench after this many rounds at most.
fn closes_in_order<T: Allocator + Copy>(
    rt: &impl Abort,
    alloc: T,
    is_swapped: bool,
    limit: u32,
    ends: (Ended, u32),
    wanted: &Left,
) {
    let plan = plan_of(rt, alloc, TWO);
    let (bench, mut desks) = opened(rt, alloc, &plan);
    take_turns(rt, &bench, desks.as_mut_slice(), limit, ends);
    let (a, b) = both(rt, &bench, desks);
    if is_swapped {
        closes_with_both(rt, alloc, bench, b, a, wanted);
    } else {
        closes_with_both(rt, alloc, bench, a, b, wanted);
    }
}

/// Job a drank first; then b had its meal, with the fork dirty and the bottle at its end, and both retired.
const AFTER_TURNS: Left = Left {
    edges: &[DIRTY_B_BOTTLE_B],
    jobs: &[(RETIRED, ONE_SESSION, true), (RETIRED, ONE_MEAL, true)],
    entries: &[(0, 1), (1, 2)],
};

const ONE_MEAL: Counts = Counts {
    meals: 1,
    sessions_done: 1,
    withdrawn: 0,
};

#[test]
fn desk_missing_at_close(rt: HostRuntime) {
    let alloc = rt.alloc();
    let limit = (Ended::Limit, 0);
    let retired = (Ended::AllRetired, 9);
    for is_swapped in [false, true] {
        closes_in_order(&rt, alloc, is_swapped, 0, limit, &UNTOUCHED);
        closes_in_order(&rt, alloc, is_swapped, 100, retired, &AFTER_TURNS);
    }
}
