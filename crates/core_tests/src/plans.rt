//! What no clause says of the builder: that its calls succeed, and go on once memory is there again; and
//! each reader of a plan on plans worked out by hand.
use crate::asked::{ends_of, instrument_name, job_of, session_of};
use crate::rows::check;
use lab_plan::name::is_name;
use lab_plan::{EdgeNo, InstrumentNo, JobNo, Plan, PlanBuilder, PlanRefusal, Verb};
use std::alloc::Allocator;
use std::process::Abort;

mod limits;
mod logged;
mod longer;
mod memory;
mod readers;

#[derive(Clone, Copy)]
pub(crate) enum Line<'a> {
    Job(&'a [u8]),
    Session,
    Patient(u32),
    Command(&'a [u8], Verb),
}

/// Adds a line, having seen to what its call requires.
fn put<A: Allocator + Copy>(
    rt: &impl Abort,
    builder: &mut PlanBuilder<A>,
    line: Line,
) -> Result<(), PlanRefusal> {
    match line {
        Line::Job(name) => put_job(rt, builder, name),
        Line::Session => put_session(rt, builder),
        Line::Patient(patience) => put_patient(rt, builder, patience),
        Line::Command(name, verb) => put_command(rt, builder, name, verb),
    }
}

fn put_job<A: Allocator + Copy>(
    rt: &impl Abort,
    builder: &mut PlanBuilder<A>,
    name: &[u8],
) -> Result<(), PlanRefusal> {
    assert!(rt; is_name(name));
    builder.job(name)
}

fn put_session<A: Allocator + Copy>(
    rt: &impl Abort,
    builder: &mut PlanBuilder<A>,
) -> Result<(), PlanRefusal> {
    assert!(rt; builder.has_job());
    builder.session()
}

fn put_patient<A: Allocator + Copy>(
    rt: &impl Abort,
    builder: &mut PlanBuilder<A>,
    patience: u32,
) -> Result<(), PlanRefusal> {
    assert!(rt; builder.has_job() && builder.version() == 2 && patience <= 999_999);
    builder.patient_session(patience)
}

fn put_command<A: Allocator + Copy>(
    rt: &impl Abort,
    builder: &mut PlanBuilder<A>,
    name: &[u8],
    verb: Verb,
) -> Result<(), PlanRefusal> {
    assert!(rt; is_name(name) && verb.fits() && builder.has_session());
    builder.command(name, verb)
}

/// Adds a line, which has to succeed.
fn put_one<A: Allocator + Copy>(rt: &impl Abort, builder: &mut PlanBuilder<A>, line: Line) {
    check(rt, "a line", put(rt, builder, line).err(), None);
}

fn put_all<A: Allocator + Copy>(rt: &impl Abort, builder: &mut PlanBuilder<A>, lines: &[Line]) {
    for (number, line) in lines.iter().enumerate() {
        check(rt, number, put(rt, builder, *line).err(), None);
    }
}

/// Has a line refused, for this cause.
fn refuse_line<A: Allocator + Copy>(
    rt: &impl Abort,
    builder: &mut PlanBuilder<A>,
    line: Line,
    wanted: PlanRefusal,
) {
    check(rt, "a line", put(rt, builder, line).err(), Some(wanted));
}

/// Finishes the plan, which has to succeed.
fn finished<A: Allocator + Copy>(rt: &impl Abort, builder: PlanBuilder<A>) -> Plan<A> {
    match builder.finish() {
        Ok(plan) => plan,
        Err(_) => panic!(rt; "no plan"),
    }
}

/// Has finishing refused, and gives back the builder.
fn refuse<A: Allocator + Copy>(
    rt: &impl Abort,
    builder: PlanBuilder<A>,
    wanted: PlanRefusal,
) -> PlanBuilder<A> {
    match builder.finish() {
        Ok(_) => panic!(rt; "finished"),
        Err((cause, builder)) => {
            check(rt, "the end", cause, wanted);
            builder
        }
    }
}

/// The plan of these lines.
pub(crate) fn plan_of<A: Allocator + Copy>(
    rt: &impl Abort,
    mut builder: PlanBuilder<A>,
    lines: &[Line],
) -> Plan<A> {
    put_all(rt, &mut builder, lines);
    finished(rt, builder)
}

/// Names of two letters: aa, ab, ..
fn name_of(number: usize) -> [u8; 2] {
    let letter = |n: usize| b'a' + (n % 26) as u8;
    [letter(number / 26), letter(number)]
}

/// Commands on this many instruments.
fn put_commands<A: Allocator + Copy>(
    rt: &impl Abort,
    builder: &mut PlanBuilder<A>,
    instruments: usize,
) {
    for number in 0..instruments {
        put_one(rt, builder, Line::Command(&name_of(number), Verb::Read));
    }
}

/// This many sessions of one command each.
fn put_sessions<A: Allocator + Copy>(
    rt: &impl Abort,
    builder: &mut PlanBuilder<A>,
    sessions: usize,
) {
    for _ in 0..sessions {
        put_one(rt, builder, Line::Session);
        put_one(rt, builder, Line::Command(b"lamp", Verb::Read));
    }
}

/// Two jobs that have the first instruments in common.
fn share<A: Allocator + Copy>(rt: &impl Abort, builder: &mut PlanBuilder<A>, instruments: usize) {
    put_all(rt, builder, &[Line::Job(b"one"), Line::Session]);
    put_commands(rt, builder, instruments);
    put_all(rt, builder, &[Line::Job(b"two"), Line::Session]);
    put_commands(rt, builder, instruments);
}

/// Two jobs with lamp in common, of the names' longest size.
const EXAMPLE: [Line<'static>; 11] = [
    Line::Job(b"grow-some-cells1"),
    Line::Session,
    Line::Command(b"lamp", Verb::Set(7)),
    Line::Command(b"sixteen-bytes-it", Verb::Add(999_999)),
    Line::Command(b"lamp", Verb::Read),
    Line::Session,
    Line::Command(b"pump", Verb::Read),
    Line::Job(b"idle"),
    Line::Job(b"wash"),
    Line::Session,
    Line::Command(b"lamp", Verb::Add(1)),
];

/// How many jobs, instruments and edges a plan has.
pub(crate) fn counts<A: Allocator>(plan: &Plan<A>) -> (usize, usize, u16) {
    (plan.jobs(), plan.instruments(), plan.edges())
}

/// What the example's plan has to be.
fn check_example<A: Allocator>(rt: &impl Abort, plan: &Plan<A>) {
    check(rt, "version", plan.version(), 1);
    check(rt, "counts", counts(plan), (3, 3, 1));
    check(rt, "edge", ends_of(rt, plan, 0), ((JobNo(0), JobNo(2)), 1));
    check_names(rt, plan);
    check_jobs(rt, plan);
    check_commands(rt, plan);
}

fn check_names<A: Allocator>(rt: &impl Abort, plan: &Plan<A>) {
    check(rt, 0, instrument_name(rt, plan, 0), b"lamp");
    check(rt, 1, instrument_name(rt, plan, 1), b"sixteen-bytes-it");
    check(rt, 2, instrument_name(rt, plan, 2), b"pump");
}

/// The names of its jobs, how many sessions each has, and the edges of each.
fn check_jobs<A: Allocator>(rt: &impl Abort, plan: &Plan<A>) {
    let edge = [EdgeNo(0)];
    check(rt, 0, job_of(rt, plan, 0), (b"grow-some-cells1", 2, &edge));
    check(rt, 1, job_of(rt, plan, 1), (b"idle", 0, &[]));
    check(rt, 2, job_of(rt, plan, 2), (b"wash", 1, &edge));
}

/// No session has a patience.
fn check_commands<A: Allocator>(rt: &impl Abort, plan: &Plan<A>) {
    check(
        rt,
        (0, 1),
        session_of(rt, plan, 0, 1),
        (None, 0b011, &FIRST),
    );
    check(
        rt,
        (0, 2),
        session_of(rt, plan, 0, 2),
        (None, 0b100, &SECOND),
    );
    check(
        rt,
        (2, 1),
        session_of(rt, plan, 2, 1),
        (None, 0b001, &THIRD),
    );
}

/// The commands of its sessions.
const FIRST: [(InstrumentNo, Verb); 3] = [
    (InstrumentNo(0), Verb::Set(7)),
    (InstrumentNo(1), Verb::Add(999_999)),
    (InstrumentNo(0), Verb::Read),
];

const SECOND: [(InstrumentNo, Verb); 1] = [(InstrumentNo(2), Verb::Read)];

const THIRD: [(InstrumentNo, Verb); 1] = [(InstrumentNo(0), Verb::Add(1))];
