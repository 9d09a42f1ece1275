//! Runs by threads, each by as many threads as were asked for: what gates see of them.
use super::gates::{Abreast, Flags};
use super::{AMPLE, TWO_ADD, pieces_of, told};
use crate::rows::check;
use counting_gate::CountingGate;
use lab_program::{Outcome, RunFault};
use lab_runs::{Gate, Task};
use std::alloc::Global;
use std::process::Abort;
use std::sync::Wait;
use std::thread::Threads;

/// What the program's task answers by this many workers, whose turns pass the gate.
fn answer_through<R: Threads + Wait + Abort + Sync, G: Gate>(
    rt: &R,
    alloc: Global,
    workers: u32,
    turns: u32,
    gate: &G,
    text: &[u8],
) -> Result<Outcome, RunFault> {
    let task = Task::Threads { workers, turns };
    let pieces = pieces_of(text, AMPLE);
    let (_, answer) = told(rt, alloc, alloc, task, gate, pieces, AMPLE);
    answer
}

/// Two jobs whose turns are taken on one thread would never see both flags.
#[test]
fn two_workers_meet(rt: HostRuntime) {
    let gate = Flags::new();
    let answer = answer_through(&rt, rt.alloc(), 2, 100_000, &gate, TWO_ADD.as_bytes());
    check(&rt, 1, (gate.both_saw(), answer.is_ok()), (true, true));
}

/// Three workers are three threads, and stay so through rounds in which they have nothing to do: of three jobs that share what they need,
/// two wait while one holds.
#[test]
fn three_workers_go_on(rt: HostRuntime) {
    let gate = Abreast::new();
    let answer = answer_through(&rt, rt.alloc(), 3, 100_000, &gate, CLIQUE.as_bytes());
    check(&rt, 1, (gate.all_met(), answer.is_ok()), (true, true));
}

/// Each job of the ring passes before each of its turns: three, which finish none, and many.
#[test]
fn gate_counts_turns(rt: HostRuntime) {
    let few = CountingGate::new();
    let answer = answer_through(&rt, rt.alloc(), 2, 3, &few, RING.as_bytes());
    let stopped = answer == Ok(Outcome::Unfinished);
    check(&rt, 4, (stopped, few.is_in_order()), (true, true));
    let many = CountingGate::new();
    let answer = answer_through(&rt, rt.alloc(), 2, 10000, &many, RING.as_bytes());
    check(&rt, 5, (answer.is_ok(), many.is_in_order()), (true, true));
    for job in 0..4u8 {
        let turns = many.passes(job);
        let is_right = 3 < turns && turns <= 10000;
        let has_ended = answer == Ok(Outcome::Finished) || turns == 10000;
        check(
            &rt,
            job,
            (few.passes(job), is_right, has_ended),
            (3, true, true),
        );
    }
}

/// Four jobs in a ring: each shares an instrument with the one before it and one with the next.
const RING: &str =
    "lab 1\njob a\nsession\nw add 1\nx add 1\nw read\nend\nsession\nx add 2\nend\njob b\nsession\nx add 3\ny set 5\nend\nsession\ny read\nx read\nend\njob c\nsession\ny add 7\nz add 1\ny add 1\nend\njob d\nsession\nz set 9\nend\nsession\nw add 4\nz add 4\nend\n";

/// Three jobs that all share two instruments.
const CLIQUE: &str =
    "lab 1\njob a\nsession\nx add 1\ny add 1\nx read\nend\nsession\ny add 2\nend\njob b\nsession\ny set 8\nx set 4\nend\nsession\nx read\ny read\nend\njob c\nsession\nx add 3\ny add 3\nend\nsession\ny add 1\nx add 1\nend\n";
