//! Desks that meet, that tell each other what they saw, and that threads call at once.
ghost use Rattle.turns.specs.Lists.{Each};
ghost use Rattle.edge_rule.specs.DeskView.{Owns};

use crate::desks::{A, AB, AC, B, BC, C, both};
use crate::labs::{THREE, TWO, opened, plan_of};
use crate::lines::Answer::{Far, Word};
use crate::lines::Call::{Glance, Look, Seen, Store, Try};
use crate::lines::Move::AllDue;
use crate::lines::{Answer, Call, Line, called, do_all};
use crate::words::{DIRTY_A_BOTTLE_A_ASKED, OPEN, OPEN_OF_THREE, THIRSTY};
use drinking_layer::is_own_edge;
use edge_rule::PhaseEvent::Thirst;
use edge_rule::{Bench, Desk, heed, look, meet, meet_all, tell};
use lab_plan::EdgeNo;
use legal_steps::{EdgeState, End};
use std::alloc::Allocator;
use std::process::Abort;
use std::thread::{Threads, join_mut};

/// Two threads, each with a desk, look at the edge of both.
fn both_look<R: Threads + Sync + Abort, T: Allocator + Send + Sync>(
    rt: &R,
    bench: &Bench<T>,
    a: &mut Desk<T>,
    b: &mut Desk<T>,
)
    requires own { Owns bench.now a.old × Owns bench.now b.old }
    ensures { Owns bench.now a.new × Owns bench.now b.new }
{
    let edge = EdgeNo(AB);
    assert!(rt; is_own_edge(bench, a, edge) && is_own_edge(bench, b, edge));
    join_mut(
        rt,
        &mut || look(bench, a, edge),
        &mut || look(bench, b, edge),
    );
}

fn edge_of<T: Allocator>(rt: &impl Abort, bench: &Bench<T>, desk: &Desk<T>) -> EdgeState
    requires own { Owns bench.now desk.now }
{
    let edge = EdgeNo(AB);
    assert!(rt; is_own_edge(bench, desk, edge));
    desk.seen(edge).unpacked()
}

/// Fork and bottle at the lower job, their tokens at the higher.
const OPENED: EdgeState = EdgeState {
    fork: End::Lower,
    dirty: true,
    token: End::Higher,
    bottles: 0,
    bottle_tokens: 1,
};

fn both_saw<T: Allocator>(rt: &impl Abort, bench: &Bench<T>, a: &Desk<T>, b: &Desk<T>)
    requires own { Owns bench.now a.now × Owns bench.now b.now }
{
    assert!(rt; edge_of(rt, bench, a) == OPENED);
    assert!(rt; edge_of(rt, bench, b) == OPENED);
}

fn met<T: Allocator>(
    rt: &impl Abort,
    bench: &Bench<T>,
    me: &mut Desk<T>,
    other: &mut Desk<T>,
) -> u64
    requires own { Owns bench.now me.old × Owns bench.now other.old }
    ensures { Owns bench.now me.new × Owns bench.now other.new }
{
    let (mine, others) = (me.job(), other.job());
    assert!(rt; mine.0 != others.0);
    meet(bench, me, other).pack()
}

fn heard<T: Allocator>(bench: &Bench<T>, desk: &mut Desk<T>, other: &mut Desk<T>)
    requires own { Owns bench.now desk.old × Owns bench.now other.old }
    ensures { Owns bench.now desk.new × Owns bench.now other.new }
{
    let news = tell(bench, other);
    heed(bench, desk, news);
}

fn does<T: Allocator>(
    rt: &impl Abort,
    bench: &Bench<T>,
    desk: &mut Desk<T>,
    call: Call,
    wanted: Answer,
)
    requires own { Owns bench.now desk.old }
    ensures { Owns bench.now desk.new }
{
    assert!(rt; called(rt, bench, desk, call) == wanted);
}

/// Meeting shows how far the other is. What is heard of is no look: the word last seen stays.
fn both_meet<T: Allocator>(rt: &impl Abort, bench: &Bench<T>, a: &mut Desk<T>, b: &mut Desk<T>)
    requires own { Owns bench.now a.old × Owns bench.now b.old }
{
    let thirst = Store(Thirst);
    does(rt, bench, b, thirst, Far(THIRSTY));
    assert!(rt; met(rt, bench, a, b) == THIRSTY);
    assert!(rt; met(rt, bench, b, a) == 0);
    does(rt, bench, b, Try(AllDue, AB), Word(DIRTY_A_BOTTLE_A_ASKED));
    heard(bench, a, b);
    does(rt, bench, a, Seen(AB), Word(OPEN));
    does(rt, bench, a, Look(AB), Word(DIRTY_A_BOTTLE_A_ASKED));
}

fn two_desks<R: Threads + Sync + Abort, T: Allocator + Copy + Send + Sync>(rt: &R, alloc: T) {
    let plan = plan_of(rt, alloc, TWO);
    let (bench, desks) = opened(rt, alloc, &plan);
    let (mut a, mut b) = both(rt, &bench, desks);
    both_look(rt, &bench, &mut a, &mut b);
    both_saw(rt, &bench, &a, &b);
    both_meet(rt, &bench, &mut a, &mut b);
}

#[test]
fn two_desks_meet(rt: HostRuntime) {
    two_desks(&rt, rt.alloc());
}

/// Before all meet.
const BEFORE: [Line; 3] = [
    (C, Store(Thirst), Far(THIRSTY)),
    (C, Look(BC), Word(OPEN_OF_THREE)),
    (C, Try(AllDue, BC), Word(DIRTY_A_BOTTLE_A_ASKED)),
];

/// The first desk has heard of the others: no look was done, and no phase is another.
const AFTER: [Line; 7] = [
    (A, Seen(AC), Word(OPEN_OF_THREE)),
    (A, Call::Phase, Far(0)),
    (A, Glance(C), Far(THIRSTY)),
    (B, Seen(BC), Word(OPEN_OF_THREE)),
    (B, Look(BC), Word(DIRTY_A_BOTTLE_A_ASKED)),
    (C, Seen(BC), Word(DIRTY_A_BOTTLE_A_ASKED)),
    (C, Call::Phase, Far(THIRSTY)),
];

fn all_meet<T: Allocator>(rt: &impl Abort, bench: &Bench<T>, desks: &mut [Desk<T>])
    requires own { Each (Owns bench.now) desks.old }
    ensures { Each (Owns bench.now) desks.new }
{
    assert!(rt; bench.has_all(desks));
    meet_all(bench, desks);
}

fn three_desks<T: Allocator + Copy>(rt: &impl Abort, alloc: T) {
    let plan = plan_of(rt, alloc, THREE);
    let (bench, mut desks) = opened(rt, alloc, &plan);
    do_all(rt, &bench, desks.as_mut_slice(), &BEFORE);
    all_meet(rt, &bench, desks.as_mut_slice());
    do_all(rt, &bench, desks.as_mut_slice(), &AFTER);
}

#[test]
fn three_desks_meet(rt: HostRuntime) {
    three_desks(&rt, rt.alloc());
}
