//! Sinks that take one byte a call, none, or fail at a call: exactly the first bytes went out.
use super::{Slow, TWO, report_by, script_by};
use crate::faults::plan_of;
use crate::rows::check;
use interleaving::World;
use report::{Failed, Sink, ToWrite, WriteFault, offer};
use std::alloc::Allocator;
use std::process::Abort;

/// The report of two jobs before their first event, and where each of its lines ends.
const REPORT: &[u8] =
    b"lab 1\ninstrument scale 0\njob a sessions 0 of 1 meals 0 waiting\njob b sessions 0 of 1 meals 0 waiting\nunfinished\n";

const REPORT_LINES: [usize; 5] = [6, 25, 63, 101, 112];

/// The upgraded script of two jobs, likewise.
const SCRIPT: &[u8] =
    b"lab 2\njob a\nsession\nscale add 1\nend\njob b\nsession\nscale add 1\nend\n";

const SCRIPT_LINES: [usize; 9] = [6, 12, 20, 32, 36, 42, 50, 62, 66];

/// What a writer takes that takes at most this many bytes a call and no more calls than these, and what the writing answers.
type Taken<A> = (Vec<u8, A>, Result<(), WriteFault>);

fn report_of_two<A: Allocator + Copy>(
    rt: &impl Abort,
    alloc: A,
    most: usize,
    calls: usize,
) -> Taken<A> {
    let plan = plan_of(rt, alloc, TWO.as_bytes());
    let Ok(world) = World::opening(alloc, &plan) else {
        panic!(rt; "no world");
    };
    report_by(alloc, &world, most, calls)
}

fn script_of_two<A: Allocator + Copy>(
    rt: &impl Abort,
    alloc: A,
    most: usize,
    calls: usize,
) -> Taken<A> {
    let plan = plan_of(rt, alloc, TWO.as_bytes());
    script_by(alloc, &plan, most, calls)
}

/// The writing failed, and these bytes were taken.
fn check_cut<A: Allocator>(rt: &impl Abort, calls: usize, taken: &Taken<A>, wanted: &[u8]) {
    check(rt, calls, taken.1, Err(WriteFault));
    check(rt, calls, taken.0.as_slice(), wanted);
}

/// All bytes were taken.
fn check_whole<A: Allocator>(rt: &impl Abort, taken: &Taken<A>, wanted: &[u8]) {
    check(rt, "whole", taken.1, Ok(()));
    check(rt, "whole", taken.0.as_slice(), wanted);
}

/// The first bytes of a text, up to the end of the line before this one.
fn lines_before<'a>(rt: &impl Abort, text: &'a [u8], ends: &[usize], line: usize) -> &'a [u8] {
    if line == 0 {
        return &text[..0];
    }
    assert!(rt; line <= ends.len() && ends[line - 1] <= text.len());
    &text[..ends[line - 1]]
}

#[test]
fn a_line_a_call(rt: HostRuntime) {
    for calls in 0..REPORT_LINES.len() {
        let first = lines_before(&rt, REPORT, &REPORT_LINES, calls);
        let taken = report_of_two(&rt, rt.alloc(), 1000, calls);
        check_cut(&rt, calls, &taken, first);
    }
    let taken = report_of_two(&rt, rt.alloc(), 1000, REPORT_LINES.len());
    check_whole(&rt, &taken, REPORT);
}

#[test]
fn a_line_of_a_script_a_call(rt: HostRuntime) {
    for calls in 0..SCRIPT_LINES.len() {
        let first = lines_before(&rt, SCRIPT, &SCRIPT_LINES, calls);
        let taken = script_of_two(&rt, rt.alloc(), 1000, calls);
        check_cut(&rt, calls, &taken, first);
    }
    let taken = script_of_two(&rt, rt.alloc(), 1000, SCRIPT_LINES.len());
    check_whole(&rt, &taken, SCRIPT);
}

#[test]
fn a_byte_a_call(rt: HostRuntime) {
    for calls in 0..REPORT.len() {
        let taken = report_of_two(&rt, rt.alloc(), 1, calls);
        check_cut(&rt, calls, &taken, &REPORT[..calls]);
    }
    let taken = report_of_two(&rt, rt.alloc(), 1, REPORT.len());
    check_whole(&rt, &taken, REPORT);
}

/// A writer that takes no byte fails, and is not asked again.
#[test]
fn no_byte(rt: HostRuntime) {
    let taken = report_of_two(&rt, rt.alloc(), 0, 1000);
    check_cut(&rt, 1000, &taken, b"");
}

#[test]
fn offers_and_flushes(rt: HostRuntime) {
    let mut bytes = Vec::new(rt.alloc());
    let mut sink = ToWrite::new(&mut bytes);
    check(&rt, "lamp", offer(&mut sink, b"lamp"), Ok(()));
    check(&rt, "nothing", offer(&mut sink, b""), Ok(()));
    check(&rt, " on", sink.write(b" on"), Ok(3));
    check(&rt, "flushes", sink.flush(), Ok(()));
    check(&rt, "!", sink.write(b"!").is_ok(), true);
    check(&rt, "taken", bytes.as_slice(), b"lamp on!");
}

/// A flush is the writer's own, with its failure.
#[test]
fn flush_fails(rt: HostRuntime) {
    let mut slow = Slow {
        bytes: Vec::new(rt.alloc()),
        most: 10,
        calls: 1,
    };
    let mut sink = ToWrite::new(&mut slow);
    check(&rt, "flushes", sink.flush(), Ok(()));
    check(&rt, "lamp", sink.write(b"lamp"), Ok(4));
    check(&rt, "flushes no more", sink.flush(), Err(Failed));
    check(&rt, "pump", sink.write(b"pump"), Err(Failed));
    check(&rt, "taken", slow.bytes.as_slice(), b"lamp");
}
