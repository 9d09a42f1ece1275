//! Memory that runs out: each allocation of a run is refused in turn, and nothing else is reported.
use super::{AMPLE, TWO_ADD, Told, pieces_of, told};
use crate::rows::check;
use lab_program::{Outcome, RunFault};
use lab_runs::{NoGate, Task};
use refusing_heap::RefusingHeap;
use script_reader::ScriptCause;
use std::alloc::Global;
use std::process::Abort;
use std::sync::Wait;
use std::thread::Threads;

/// A run on a heap that refuses this allocation; and how many allocations it asked for.
fn told_without<R: Threads + Wait + Abort + Sync>(
    rt: &R,
    out: Global,
    task: Task,
    text: &[u8],
    refused: u64,
) -> (Told, u64) {
    let heap = RefusingHeap::new(out, refused);
    let pieces = pieces_of(text, AMPLE);
    let came = told(rt, &heap, out, task, &NoGate, pieces, AMPLE);
    (came, heap.allocations())
}

fn is_no_memory(answer: &Result<Outcome, RunFault>) -> bool {
    match answer {
        Err(RunFault::NoMemory) => true,
        Err(RunFault::Script(fault)) => fault.cause == ScriptCause::NoMemory,
        _ => false,
    }
}

/// Each allocation of a run is refused. How many there are in all, and how many while it reads its script.
fn allocations<R: Threads + Wait + Abort + Sync>(
    rt: &R,
    out: Global,
    task: Task,
    text: &[u8],
) -> (u64, u64) {
    let ((_, whole), all) = told_without(rt, out, task, text, 0);
    check(rt, (task, 0), whole.is_ok(), true);
    let mut script = 0u64;
    for number in 0..all {
        let ((bytes, answer), _) = told_without(rt, out, task, text, number + 1);
        check(
            rt,
            (task, number + 1),
            (is_no_memory(&answer), bytes.len()),
            (true, 0),
        );
        if answer != Err(RunFault::NoMemory) {
            script = script.saturating_add(1);
        }
    }
    (all, script)
}

/// Two jobs on one instrument, and a step.
const STEPS: &str =
    "lab 1\njob a\nsession\nscale add 1\nend\njob b\nsession\nscale add 1\nend\nsteps\nthirst a\n";

fn by(workers: u32) -> Task {
    Task::Threads { workers, turns: 9 }
}

/// Some allocations are refused while the script is read, and some behind it, but for an upgrade, which needs no more.
#[test]
fn allocations_of_each_run(rt: HostRuntime) {
    for (task, text) in [
        (Task::Replay, STEPS),
        (Task::Check, TWO_ADD),
        (Task::Upgrade, TWO_ADD),
        (Task::Rounds { limit: 9 }, TWO_ADD),
        (by(1), TWO_ADD),
        (by(2), TWO_ADD),
        (by(32), TWO_ADD),
    ] {
        let (all, script) = allocations(&rt, rt.alloc(), task, text.as_bytes());
        let is_behind = script < all || task == Task::Upgrade;
        check(&rt, task, (script > 0, is_behind), (true, true));
    }
}
