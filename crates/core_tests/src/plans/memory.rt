//! Memory that runs out: refused calls change nothing, and go on once memory is there again.
use super::{
    EXAMPLE, Line, check_example, finished, name_of, put, put_all, put_commands, put_one,
    put_sessions, refuse, refuse_line, share,
};
use crate::heaps::{HEAP, ballast_of, heap_of};
use crate::rows::check;
use lab_plan::{PlanBuilder, PlanRefusal, Verb};
use linked_list_allocator::LocalHeap;
use std::alloc::{Allocator, Global};
use std::process::Abort;

/// What is left of a heap, in its smallest blocks.
pub(super) type Blocks<'a> = Vec<Vec<u8, &'a LocalHeap>>;

/// Whether the heap had one more block, which is then taken.
fn takes_block<'a>(rt: &impl Abort, blocks: &mut Blocks<'a>, heap: &'a LocalHeap) -> bool {
    match Vec::with_capacity(heap, 16) {
        Ok(block) => {
            check(rt, "a block", blocks.push(block).is_ok(), true);
            true
        }
        Err(_) => false,
    }
}

/// Takes what is left of a heap.
pub(super) fn fill<'a>(rt: &impl Abort, alloc: Global, heap: &'a LocalHeap) -> Blocks<'a> {
    let mut blocks = Vec::new(alloc);
    for _ in 0..HEAP {
        if !takes_block(rt, &mut blocks, heap) {
            break;
        }
    }
    blocks
}

/// Adds the example's lines. The first allocation that is refused lets the ballast go, and the line
/// then goes through.
fn build<A: Allocator + Copy, B: Drop>(
    rt: &impl Abort,
    builder: &mut PlanBuilder<A>,
    mut ballast: Option<B>,
) -> Option<B> {
    for &line in &EXAMPLE {
        if let Err(cause) = put(rt, builder, line) {
            is_first(rt, cause, &ballast);
            ballast = None;
            put_one(rt, builder, line);
        }
    }
    ballast
}

/// Only want of memory is reported, and only while the ballast is there.
fn is_first<B: Drop>(rt: &impl Abort, cause: PlanRefusal, ballast: &Option<B>) {
    let told = (cause, ballast.is_some());
    check(rt, "the first", told, (PlanRefusal::NoMemory, true));
}

/// Finishes the example, in a second try once the ballast is gone, and tells whether it took one.
fn finish<A: Allocator + Copy, B: Drop>(
    rt: &impl Abort,
    builder: PlanBuilder<A>,
    ballast: Option<B>,
) -> bool {
    match builder.finish() {
        Ok(plan) => {
            check_example(rt, &plan);
            false
        }
        Err((cause, builder)) => {
            is_first(rt, cause, &ballast);
            drop(ballast);
            check_example(rt, &finished(rt, builder));
            true
        }
    }
}

/// Builds the example with so much room for its allocations at first, and tells whether a line had to wait
/// for the ballast, and whether its end had to.
fn build_with_room(rt: &impl Abort, alloc: Global, room: usize) -> (bool, bool) {
    let heap = heap_of(rt, alloc, HEAP);
    let ballast = ballast_of(rt, &heap, room);
    let mut builder = PlanBuilder::new(&heap);
    let ballast = build(rt, &mut builder, Some(ballast));
    let waited = ballast.is_none();
    (waited, finish(rt, builder, ballast))
}

/// The room that is left at first grows by 16 bytes a run, so each allocation in turn is the first
/// that is refused; then the rest of the heap comes free.
#[test]
fn goes_on_after_each_refused_allocation(rt: HostRuntime) {
    let mut refused = 0u32;
    let mut refused_at_end = 0u32;
    for room in 1..800usize {
        let (waited, waited_at_end) = build_with_room(&rt, rt.alloc(), 16 * room);
        refused = refused.saturating_add(waited as u32);
        refused_at_end = refused_at_end.saturating_add(waited_at_end as u32);
    }
    assert!(rt; refused > 20 && refused_at_end > 20);
}

/// Has lines refused while no memory is left.
fn refuse_lines<A: Allocator + Copy>(
    rt: &impl Abort,
    alloc: Global,
    heap: &LocalHeap,
    builder: &mut PlanBuilder<A>,
    lines: &[(Line, PlanRefusal)],
) {
    let blocks = fill(rt, alloc, heap);
    for (line, cause) in lines {
        refuse_line(rt, builder, *line, *cause);
    }
    drop(blocks);
}

/// Has finishing refused while no memory is left, and gives back the builder.
fn refuse_end<A: Allocator + Copy>(
    rt: &impl Abort,
    alloc: Global,
    heap: &LocalHeap,
    builder: PlanBuilder<A>,
    cause: PlanRefusal,
) -> PlanBuilder<A> {
    let blocks = fill(rt, alloc, heap);
    let builder = refuse(rt, builder, cause);
    drop(blocks);
    builder
}

const JOBS: [(Line<'static>, PlanRefusal); 2] = [
    (Line::Job(b"last"), PlanRefusal::NoMemory),
    (Line::Job(b"aa"), PlanRefusal::JobTwice),
];

const IN_EMPTY_SESSION: [(Line<'static>, PlanRefusal); 2] = [
    (Line::Job(b"aa"), PlanRefusal::SessionEmpty),
    (Line::Session, PlanRefusal::SessionEmpty),
];

const PAST_JOBS: [(Line<'static>, PlanRefusal); 1] = [(
    Line::Job(b"more"),
    PlanRefusal::LimitPassed,
)];

fn put_31_jobs<A: Allocator + Copy>(rt: &impl Abort, builder: &mut PlanBuilder<A>) {
    for number in 0..31 {
        put_one(rt, builder, Line::Job(&name_of(number)));
    }
}

fn check_causes<A: Allocator + Copy>(
    rt: &impl Abort,
    alloc: Global,
    heap: &LocalHeap,
    builder: &mut PlanBuilder<A>,
) {
    put_31_jobs(rt, builder);
    put_one(rt, builder, Line::Session);
    put_commands(rt, builder, 29);
    refuse_lines(rt, alloc, heap, builder, &JOBS);
    put_all(rt, builder, &[Line::Job(b"last"), Line::Session]);
    refuse_lines(rt, alloc, heap, builder, &IN_EMPTY_SESSION);
    put_commands(rt, builder, 28);
    refuse_lines(rt, alloc, heap, builder, &PAST_JOBS);
}

/// Want of memory comes last.
#[test]
fn other_causes_come_before_memory(rt: HostRuntime) {
    let heap = heap_of(&rt, rt.alloc(), HEAP);
    let mut builder = PlanBuilder::new(&heap);
    check_causes(&rt, rt.alloc(), &heap, &mut builder);
    let builder = refuse_end(&rt, rt.alloc(), &heap, builder, PlanRefusal::NoMemory);
    drop(finished(&rt, builder));
}

/// A line is refused for a limit that it passes, though memory is out: a new job gets none.
const PAST_INSTRUMENTS: [(Line<'static>, PlanRefusal); 2] = [
    (Line::Command(b"lamp", Verb::Read), PlanRefusal::LimitPassed),
    (Line::Job(b"more"), PlanRefusal::NoMemory),
];

const PAST_SESSIONS: [(Line<'static>, PlanRefusal); 2] = [
    (Line::Session, PlanRefusal::LimitPassed),
    (Line::Job(b"more"), PlanRefusal::NoMemory),
];

/// What a job has as much of as it may.
#[derive(Clone, Copy)]
enum Most {
    Instruments,
    Sessions,
}

fn put_most<A: Allocator + Copy>(rt: &impl Abort, builder: &mut PlanBuilder<A>, most: Most) {
    put_one(rt, builder, Line::Job(b"one"));
    match most {
        Most::Instruments => {
            put_one(rt, builder, Line::Session);
            put_commands(rt, builder, 56);
        }
        Most::Sessions => put_sessions(rt, builder, 1000),
    }
}

/// Has lines refused behind as much as there may be, with no memory left.
fn refuse_behind(
    rt: &impl Abort,
    alloc: Global,
    size: usize,
    most: Most,
    lines: &[(Line, PlanRefusal)],
) {
    let heap = heap_of(rt, alloc, size);
    let mut builder = PlanBuilder::new(&heap);
    put_most(rt, &mut builder, most);
    refuse_lines(rt, alloc, &heap, &mut builder, lines);
}

/// A 57th instrument is past the limit with no memory left.
#[test]
fn limit_of_instruments_comes_before_memory(rt: HostRuntime) {
    let most = Most::Instruments;
    refuse_behind(&rt, rt.alloc(), HEAP, most, &PAST_INSTRUMENTS);
}

/// A 1001st session is past the limit with no memory left.
#[test]
fn limit_of_sessions_comes_before_memory(rt: HostRuntime) {
    let most = Most::Sessions;
    refuse_behind(&rt, rt.alloc(), 8 * HEAP, most, &PAST_SESSIONS);
}

/// Finishing tells an empty session, and too many in common, with no memory left.
#[test]
fn finishing_refuses_without_memory(rt: HostRuntime) {
    let heap = heap_of(&rt, rt.alloc(), HEAP);
    let mut builder = PlanBuilder::new(&heap);
    share(&rt, &mut builder, 29);
    let crowded = PlanRefusal::TooManyInCommon;
    let builder = refuse_end(&rt, rt.alloc(), &heap, builder, crowded);
    let mut builder = refuse_end(&rt, rt.alloc(), &heap, builder, crowded);
    put_one(&rt, &mut builder, Line::Session);
    drop(refuse_end(&rt, rt.alloc(), &heap, builder, PlanRefusal::SessionEmpty));
}
