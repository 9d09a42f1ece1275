//! Memory: how much a list of steps takes, and what is reported if it runs out. Each allocation in turn is the first that is refused, and
//! nothing else is reported.
use crate::asked::{instrument_name, job_of, session_of};
use crate::heaps::{HEAP, ballast_of, heap_of};
use crate::plans::counts;
use crate::rows::check;
use lab_plan::{EdgeNo, InstrumentNo, Plan, Verb};
use legal_steps::StepLine;
use script_reader::ScriptCause::NoMemory;
use script_reader::{ScriptFault, read_plan, read_steps};
use std::alloc::{Allocator, Global};
use std::mem::size_of;
use std::process::Abort;

/// A job, and these lines this many times behind the word `steps`.
fn steps_text(rt: &impl Abort, alloc: Global, lines: &str, times: usize) -> String {
    let mut text = String::new(alloc);
    add(rt, &mut text, "lab 1\njob a\nsteps\n");
    for _ in 0..times {
        add(rt, &mut text, lines);
    }
    text
}

fn add(rt: &impl Abort, text: &mut String, part: &str) {
    check(rt, part, text.push_str(part).is_ok(), true);
}

/// How many jobs and steps a text has, and for how many steps its list has room.
fn counts_of<A: Allocator + Copy>(
    alloc: A,
    text: &[u8],
) -> Result<(usize, usize, usize), ScriptFault> {
    match read_steps(alloc, text) {
        Ok((plan, steps)) => Ok((plan.jobs(), steps.len(), steps.capacity())),
        Err(fault) => Err(fault),
    }
}

/// The text has this many steps of one job, in a list with no more room than this.
fn check_sits(rt: &impl Abort, alloc: Global, text: &str, count: usize, room: usize) {
    match counts_of(alloc, text.as_bytes()) {
        Ok((jobs, steps, most)) => {
            check(rt, room, (jobs, steps, most <= room), (1, count, true));
        }
        Err(fault) => check(rt, count, Some(fault), None),
    }
}

/// A step takes 16 bytes, and the list has room for at most twice as many steps as it has.
#[test]
fn room_of_steps(rt: HostRuntime) {
    let text = steps_text(&rt, rt.alloc(), "# skipped\nsit a\n\n", 1025);
    check(&rt, "a step", size_of::<StepLine>(), 16);
    check_sits(&rt, rt.alloc(), &text, 1025, 2050);
}

/// Two jobs with a scale.
const BENCH: &[u8] =
    b"lab 1\r\n\r\n# bench\r\njob a\r\nsession\r\nscale add 1\r\nend\r\njob b\r\nsession\r\nscale add 1\r\nend";

const ADD_1: [(InstrumentNo, Verb); 1] = [(InstrumentNo(0), Verb::Add(1))];

fn check_bench<A: Allocator>(rt: &impl Abort, plan: &Plan<A>) {
    let edge = [EdgeNo(0)];
    check(rt, "version", plan.version(), 1);
    check(rt, "counts", counts(plan), (2, 1, 1));
    check(rt, "instrument", instrument_name(rt, plan, 0), b"scale");
    check(rt, 0, job_of(rt, plan, 0), (b"a", 1, &edge));
    check(rt, 1, job_of(rt, plan, 1), (b"b", 1, &edge));
    check(rt, 0, session_of(rt, plan, 0, 1), (None, 1, &ADD_1));
    check(rt, 1, session_of(rt, plan, 1, 1), (None, 1, &ADD_1));
}

/// Memory ran out, at one of these lines.
fn check_fault(rt: &impl Abort, fault: ScriptFault, first: usize, last: usize) {
    let is_within = first <= fault.line && fault.line <= last;
    check(rt, fault, (fault.cause, is_within), (NoMemory, true));
}

/// Whether there is memory for the plan of the bench; that none is left is all that may be told.
fn reads_plan<A: Allocator + Copy>(rt: &impl Abort, alloc: A) -> bool {
    match read_plan(alloc, BENCH) {
        Ok(plan) => {
            check_bench(rt, &plan);
            true
        }
        Err(fault) => {
            check_fault(rt, fault, 4, 12);
            false
        }
    }
}

/// Whether a heap with so much room at first has enough for it.
fn has_room_for_plan(rt: &impl Abort, alloc: Global, room: usize) -> bool {
    let heap = heap_of(rt, alloc, HEAP);
    let ballast = ballast_of(rt, &heap, room);
    let has_room = reads_plan(rt, &heap);
    drop(ballast);
    has_room
}

#[test]
fn allocations_of_a_plan(rt: HostRuntime) {
    let mut read = 0u32;
    for room in 1..800usize {
        let has_room = has_room_for_plan(&rt, rt.alloc(), 16 * room);
        read = read.saturating_add(has_room as u32);
    }
    assert!(rt; read > 0 && read < 779);
}

/// The line of the 600 steps of a text at which memory runs out, from line 4 on, if it does; before that it may, too.
fn line_without_memory<A: Allocator + Copy>(
    rt: &impl Abort,
    alloc: A,
    text: &[u8],
) -> Option<usize> {
    match counts_of(alloc, text) {
        Ok((jobs, steps, _)) => {
            check(rt, "read", (jobs, steps), (1, 600));
            None
        }
        Err(fault) => {
            check_fault(rt, fault, 2, 603);
            Some(fault.line)
        }
    }
}

/// That of a heap with so much room at first.
fn line_without_room(rt: &impl Abort, alloc: Global, room: usize, text: &[u8]) -> Option<usize> {
    let heap = heap_of(rt, alloc, HEAP);
    let ballast = ballast_of(rt, &heap, room);
    let line = line_without_memory(rt, &heap, text);
    drop(ballast);
    line
}

/// How often memory runs out, and how often it does at the steps.
fn count_lines(rt: &impl Abort, alloc: Global, text: &[u8]) -> (u32, u32) {
    let mut refused = 0u32;
    let mut refused_at_steps = 0u32;
    for room in 1..800usize {
        if let Some(line) = line_without_room(rt, alloc, 64 * room, text) {
            refused = refused.saturating_add(1);
            refused_at_steps = refused_at_steps.saturating_add((line > 3) as u32);
        }
    }
    (refused, refused_at_steps)
}

#[test]
fn allocations_of_a_list(rt: HostRuntime) {
    let text = steps_text(&rt, rt.alloc(), "sit a\n", 600);
    let (refused, refused_at_steps) = count_lines(&rt, rt.alloc(), text.as_bytes());
    let is_some = refused > 10 && refused < 799;
    check(&rt, refused, (is_some, refused_at_steps > 0), (true, true));
}
