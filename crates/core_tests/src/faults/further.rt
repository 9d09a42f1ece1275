//! Further sessions for a job of a plan: what given texts have, by hand, and their faults.
use super::{Fault, plan_of, told};
use crate::heaps::heap_of;
use crate::rows::check;
use lab_plan::{InstrumentNo, JobNo, Plan, Verb};
use script_reader::ScriptCause::{
    BadName, BadNumber, EmptySession, LimitPassed, NoMemory, NotInSession, NotItsOwn,
    SessionNotClosed, UnknownWord,
};
use script_reader::{FurtherSession, ScriptCause, ScriptFault, read_sessions};
use std::alloc::{Allocator, Global};
use std::process::Abort;

/// Job a names lamp and scale, job b lamp, job c nothing.
const BENCH: &[u8] =
    b"lab 2\njob b\nsession\nlamp read\nend\njob a\nsession\nscale read\nlamp read\nend\njob c\n";

/// The same jobs in version 1.
const OLD_BENCH: &[u8] = b"lab 1\njob b\nsession\nlamp read\nend\n";

const LAMP: InstrumentNo = InstrumentNo(0);

const SCALE: InstrumentNo = InstrumentNo(1);

/// The sessions that a text has for a job.
fn read<A: Allocator + Copy>(
    rt: &impl Abort,
    alloc: A,
    plan: &Plan<Global>,
    job: u8,
    text: &str,
) -> Result<Vec<FurtherSession<A>, A>, ScriptFault> {
    assert!(rt; (job as usize) < plan.jobs());
    read_sessions(alloc, plan, JobNo(job), text.as_bytes())
}

fn fault_of(rt: &impl Abort, alloc: Global, plan: &Plan<Global>, job: u8, text: &str) -> Fault {
    told(read(rt, alloc, plan, job, text))
}

/// One of the sessions: its patience and its commands.
fn session<A: Allocator>(
    rt: &impl Abort,
    sessions: &[FurtherSession<A>],
    number: usize,
    patience: Option<u32>,
    commands: &[(InstrumentNo, Verb)],
) {
    assert!(rt; number < sessions.len());
    let session = &sessions[number];
    check(rt, number, session.patience(), patience);
    check(rt, number, session.commands(), commands);
}

const TWO: &str =
    " # two\n\nsession patience 0\r\nscale\tset 7\nlamp read\nscale add 999999\nend\nsession\nlamp read\nend";

fn check_two<A: Allocator>(rt: &impl Abort, sessions: &[FurtherSession<A>]) {
    check(rt, "two", sessions.len(), 2);
    let first = [
        (SCALE, Verb::Set(7)),
        (LAMP, Verb::Read),
        (SCALE, Verb::Add(999_999)),
    ];
    session(rt, sessions, 0, Some(0), &first);
    session(rt, sessions, 1, None, &[(LAMP, Verb::Read)]);
}

/// What is asked of a plan.
#[derive(Clone, Copy)]
enum Asked {
    Two,
    Faults,
    Patience,
    Counted,
    Memory,
}

fn ask(rt: &impl Abort, alloc: Global, plan: &mut Plan<Global>, asked: Asked) {
    match asked {
        Asked::Two => assert!(rt; reads_two(rt, alloc, plan)),
        Asked::Faults => check_faults(rt, alloc, plan),
        Asked::Patience => check_patience(rt, alloc, plan),
        Asked::Counted => check_counted(rt, alloc, plan),
        Asked::Memory => check_memory(rt, alloc, plan),
    }
}

/// It alone owns a plan.
fn ask_of(rt: &impl Abort, alloc: Global, script: &[u8], asked: Asked) {
    let mut plan = plan_of(rt, alloc, script);
    ask(rt, alloc, &mut plan, asked);
}

#[test]
fn reads_further_sessions(rt: HostRuntime) {
    ask_of(&rt, rt.alloc(), BENCH, Asked::Two);
}

/// A job, a text for it, and its fault.
type Faulty = (u8, &'static str, usize, ScriptCause);

const FAULTS: [Faulty; 23] = [
    (1, "", 1, EmptySession),
    (1, "\n# none\n", 3, EmptySession),
    (1, "session\nend\n", 2, EmptySession),
    (1, "session", 2, SessionNotClosed),
    (1, "session\nlamp read\n", 3, SessionNotClosed),
    (1, "session\nlamp read\nsession", 3, SessionNotClosed),
    (1, "lamp read", 1, NotInSession),
    (1, "end", 1, NotInSession),
    (1, "session\nlamp read\nend\nend", 4, NotInSession),
    (1, "lab 2", 1, UnknownWord),
    (1, "job a", 1, UnknownWord),
    (1, "steps", 1, UnknownWord),
    (1, "session\nlamp", 2, UnknownWord),
    (1, "session patience", 1, UnknownWord),
    (1, "session patience 007", 1, BadNumber),
    (1, "session\nlamp set 1000000", 2, BadNumber),
    (1, "session\nLamp read", 2, BadName),
    (1, "session\nLamp set x", 2, BadName),
    (1, "session\npump set 00", 2, BadNumber),
    (1, "session\npump read", 2, NotItsOwn),
    (0, "session\nlamp read\nscale read\nend", 3, NotItsOwn),
    (0, "session\na read", 2, NotItsOwn),
    (2, "session\nlamp read", 2, NotItsOwn),
];

fn check_faults(rt: &impl Abort, alloc: Global, plan: &Plan<Global>) {
    for &(job, text, line, cause) in &FAULTS {
        let came = fault_of(rt, alloc, plan, job, text);
        check(rt, (job, text), came, Some((line, cause)));
    }
}

#[test]
fn faults_of_further_sessions(rt: HostRuntime) {
    ask_of(&rt, rt.alloc(), BENCH, Asked::Faults);
}

fn check_patience(rt: &impl Abort, alloc: Global, plan: &Plan<Global>) {
    let text = "session patience 3\nlamp read\nend";
    let patient = fault_of(rt, alloc, plan, 0, text);
    check(rt, "patient", patient, Some((1, UnknownWord)));
    let plain = fault_of(rt, alloc, plan, 0, "session\nlamp read\nend");
    check(rt, "plain", plain, None);
}

/// A plan of version 1 has no patience.
#[test]
fn knows_no_patience_in_version_one(rt: HostRuntime) {
    ask_of(&rt, rt.alloc(), OLD_BENCH, Asked::Patience);
}

/// Sessions of one command each, until the job has this many.
fn add_until<A: Allocator>(rt: &impl Abort, plan: &mut Plan<A>, last: u32) {
    for _ in 0..last {
        assert!(rt; plan.jobs() > 0);
        if plan.sessions(JobNo(0)) < last {
            let added = plan.add_session(JobNo(0), None, &[(LAMP, Verb::Read)]);
            check(rt, last, added, Ok(()));
        }
    }
}

/// The job has 999 sessions: one more is read, and no second one.
fn check_counted(rt: &impl Abort, alloc: Global, plan: &mut Plan<Global>) {
    add_until(rt, plan, 999);
    let one = "session\nlamp read\nend\n";
    check(rt, 1000, fault_of(rt, alloc, plan, 0, one), None);
    let two = "session\nlamp read\nend\nsession\nlamp read\nend\n";
    let fault = fault_of(rt, alloc, plan, 0, two);
    check(rt, 1001, fault, Some((4, LimitPassed)));
}

#[test]
fn counts_the_sessions_that_are_there(rt: HostRuntime) {
    ask_of(&rt, rt.alloc(), BENCH, Asked::Counted);
}

/// What is read with so much memory: the sessions, or that none is left.
fn reads_with(rt: &impl Abort, alloc: Global, plan: &Plan<Global>, size: usize) -> bool {
    let heap = heap_of(rt, alloc, size);
    reads_two(rt, &heap, plan)
}

fn reads_two<A: Allocator + Copy>(rt: &impl Abort, alloc: A, plan: &Plan<Global>) -> bool {
    match read(rt, alloc, plan, 1, TWO) {
        Ok(sessions) => {
            check_two(rt, &sessions);
            true
        }
        Err(fault) => {
            check(rt, fault, (fault.cause, fault.line < 10), (NoMemory, true));
            false
        }
    }
}

/// Each allocation in turn is the first that is refused, and nothing else is told.
fn check_memory(rt: &impl Abort, alloc: Global, plan: &Plan<Global>) {
    let mut read = 0u32;
    for size in 1..60usize {
        let was = reads_with(rt, alloc, plan, 32 * size);
        read = read.saturating_add(was as u32);
    }
    assert!(rt; read > 0 && read < 59);
}

#[test]
fn further_sessions_without_memory(rt: HostRuntime) {
    ask_of(&rt, rt.alloc(), BENCH, Asked::Memory);
}
