//! One more session of a plan's job, while the plan is in use: what it has then, the refusals in their order, and memory that runs out.
use super::memory::fill;
use super::{EXAMPLE, FIRST, Line, check_example, counts, plan_of};
use crate::asked::{ends_of, job_of, place_of, session_of};
use crate::heaps::heap_of;
use crate::rows::check;
use lab_plan::{EdgeNo, InstrumentNo, JobNo, MoreRefusal, Place, Plan, PlanBuilder, Verb};
use std::alloc::{Allocator, Global};
use std::process::Abort;

/// A session that is offered: its job, its patience, its commands by the numbers of their instruments, and what is answered.
type Offer = (u8, Option<u32>, &'static [(u8, Verb)], Option<MoreRefusal>);

const LAMP: u8 = 0;

const SCALE: u8 = 1;

const PUMP: u8 = 2;

fn add<A: Allocator>(
    rt: &impl Abort,
    plan: &mut Plan<A>,
    job: u8,
    patience: Option<u32>,
    commands: &[(InstrumentNo, Verb)],
) -> Option<MoreRefusal> {
    assert!(rt; (job as usize) < plan.jobs());
    plan.add_session(JobNo(job), patience, commands).err()
}

/// Why the plan would refuse the session, asked before it is added.
fn why_not<A: Allocator>(
    rt: &impl Abort,
    plan: &Plan<A>,
    job: u8,
    patience: Option<u32>,
    commands: &[(InstrumentNo, Verb)],
) -> Option<MoreRefusal> {
    assert!(rt; (job as usize) < plan.jobs());
    plan.more_refusal(JobNo(job), patience, commands)
}

fn commands_of<A: Allocator>(
    rt: &impl Abort,
    alloc: A,
    commands: &[(u8, Verb)],
) -> Vec<(InstrumentNo, Verb), A> {
    let mut all = Vec::new(alloc);
    for &(instrument, verb) in commands {
        let is_added = all.push((InstrumentNo(instrument), verb)).is_ok();
        check(rt, instrument, is_added, true);
    }
    all
}

/// Offers the session, and asks before it what will be answered.
fn offer_one<A: Allocator + Copy>(rt: &impl Abort, alloc: A, plan: &mut Plan<A>, offer: &Offer) {
    let (job, patience, commands, wanted) = *offer;
    let session = commands_of(rt, alloc, commands);
    let told = why_not(rt, plan, job, patience, &session);
    let came = add(rt, plan, job, patience, &session);
    check(rt, commands, told, wanted);
    check(rt, commands, came, wanted);
}

/// Offers each session in turn.
fn offer<A: Allocator + Copy>(rt: &impl Abort, alloc: A, plan: &mut Plan<A>, offers: &[Offer]) {
    for session in offers {
        offer_one(rt, alloc, plan, session);
    }
}

/// What is looked at in a plan to which sessions were offered.
#[derive(Clone, Copy)]
enum Looked {
    AtThird,
    AtPatience,
    AtExample,
    AtThousand,
    AtNames,
}

fn look<A: Allocator>(rt: &impl Abort, plan: &mut Plan<A>, looked: Looked) {
    match looked {
        Looked::AtThird => check_third(rt, plan),
        Looked::AtPatience => check_patience(rt, plan),
        Looked::AtExample => check_example(rt, plan),
        Looked::AtThousand => fill_to_thousand(rt, plan),
        Looked::AtNames => check_names(rt, plan),
    }
}

/// The plan of these lines is offered these sessions, and looked at.
fn offer_to<A: Allocator + Copy>(
    rt: &impl Abort,
    alloc: A,
    builder: PlanBuilder<A>,
    lines: &[Line],
    offers: &[Offer],
    looked: Looked,
) {
    let mut plan = plan_of(rt, builder, lines);
    offer(rt, alloc, &mut plan, offers);
    look(rt, &mut plan, looked);
}

/// The same of the example.
fn offer_to_example(rt: &impl Abort, alloc: Global, offers: &[Offer], looked: Looked) {
    let builder = PlanBuilder::new(alloc);
    offer_to(rt, alloc, builder, &EXAMPLE, offers, looked);
}

/// The third session of the first job, on lamp, pump and lamp again.
const THIRD: [(InstrumentNo, Verb); 3] = [
    (InstrumentNo(LAMP), Verb::Add(999_999)),
    (InstrumentNo(PUMP), Verb::Set(0)),
    (InstrumentNo(LAMP), Verb::Read),
];

const ONE_MORE: [Offer; 1] = [(
    0,
    None,
    &[
        (LAMP, Verb::Add(999_999)),
        (PUMP, Verb::Set(0)),
        (LAMP, Verb::Read),
    ],
    None,
)];

fn check_added<A: Allocator>(rt: &impl Abort, row: usize, plan: &Plan<A>) {
    check(rt, row, session_of(rt, plan, 0, 3), (None, 0b101, &THIRD));
}

/// The sessions of the first job are as they were, with the third behind them; edges and instruments stay as they are.
fn check_third<A: Allocator>(rt: &impl Abort, plan: &Plan<A>) {
    let edge = [EdgeNo(0)];
    let place = Place {
        place: 2,
        length: 2,
    };
    check(rt, "counts", counts(plan), (3, 3, 1));
    check(rt, "edge", ends_of(rt, plan, 0), ((JobNo(0), JobNo(2)), 1));
    check(rt, 0, job_of(rt, plan, 0), (b"grow-some-cells1", 3, &edge));
    check(rt, 1, session_of(rt, plan, 0, 1), (None, 0b011, &FIRST));
    check_added(rt, 3, plan);
    check(rt, "place", place_of(rt, plan, 0, 3, 2), place);
    check(rt, "all", plan.all_commands(), 8);
}

#[test]
fn has_one_more_session(rt: HostRuntime) {
    offer_to_example(&rt, rt.alloc(), &ONE_MORE, Looked::AtThird);
}

const WASH: [Line<'static>; 3] = [
    Line::Job(b"wash"),
    Line::Patient(1),
    Line::Command(b"lamp", Verb::Read),
];

const PATIENT: [Offer; 3] = [
    (
        0,
        Some(1_000_000),
        &[(LAMP, Verb::Read)],
        Some(MoreRefusal::NotPatient),
    ),
    (0, Some(999_999), &[(LAMP, Verb::Read)], None),
    (0, None, &[(LAMP, Verb::Read)], None),
];

fn check_patience<A: Allocator>(rt: &impl Abort, plan: &Plan<A>) {
    let read = [(InstrumentNo(LAMP), Verb::Read)];
    let (second, third) = (session_of(rt, plan, 0, 2), session_of(rt, plan, 0, 3));
    check(rt, 2, second, (Some(999_999), 1, &read));
    check(rt, 3, third, (None, 1, &read));
}

/// A plan of version 2 takes a patience.
#[test]
fn has_one_more_patient_session(rt: HostRuntime) {
    let builder = PlanBuilder::new_two(rt.alloc());
    offer_to(
        &rt,
        rt.alloc(),
        builder,
        &WASH,
        &PATIENT,
        Looked::AtPatience,
    );
}

const LARGE: Verb = Verb::Set(1_000_000);

/// Sessions that have a fault, and some of them another behind it.
const REFUSED: [Offer; 8] = [
    (0, Some(3), &[], Some(MoreRefusal::Empty)),
    (2, Some(3), &[(PUMP, LARGE)], Some(MoreRefusal::NotItsOwn)),
    (
        2,
        None,
        &[(LAMP, Verb::Read), (SCALE, Verb::Read)],
        Some(MoreRefusal::NotItsOwn),
    ),
    (0, None, &[(3, Verb::Read)], Some(MoreRefusal::NotItsOwn)),
    (0, None, &[(255, Verb::Read)], Some(MoreRefusal::NotItsOwn)),
    (1, None, &[(LAMP, Verb::Read)], Some(MoreRefusal::NotItsOwn)),
    (2, Some(3), &[(LAMP, LARGE)], Some(MoreRefusal::NotPatient)),
    (
        2,
        None,
        &[(LAMP, Verb::Read), (LAMP, LARGE)],
        Some(MoreRefusal::TooLarge),
    ),
];

/// Each is refused for the first of its reasons, and the plan stays as it was.
#[test]
fn refuses_one_more_session(rt: HostRuntime) {
    offer_to_example(&rt, rt.alloc(), &REFUSED, Looked::AtExample);
}

/// Adds sessions until the job has 1000; the next is one too many.
fn fill_to_thousand<A: Allocator>(rt: &impl Abort, plan: &mut Plan<A>) {
    let (lamp, pump) = (
        [(InstrumentNo(LAMP), Verb::Read)],
        [(InstrumentNo(PUMP), Verb::Read)],
    );
    for row in 1..1000u32 {
        check(rt, row, add(rt, plan, 2, None, &lamp), None);
    }
    let told = why_not(rt, plan, 2, None, &pump);
    let more = (told, add(rt, plan, 2, None, &pump));
    let passed = Some(MoreRefusal::LimitPassed);
    check(rt, 1000, more, (passed, passed));
    check(rt, "job", job_of(rt, plan, 2).1, 1000);
}

#[test]
fn refuses_the_thousand_and_first_session(rt: HostRuntime) {
    offer_to_example(&rt, rt.alloc(), &[], Looked::AtThousand);
}

/// A name that is asked for, and the number of the instrument and of the job that has it.
const NAMED: [(&[u8], Option<u8>, Option<u8>); 4] = [
    (b"lamp", Some(0), None),
    (b"pump", Some(2), None),
    (b"idle", None, Some(1)),
    (b"wash", None, Some(2)),
];

/// Whether the third job names the instrument of this number; of 200 there is none.
const OF_THIRD: [(u8, bool); 3] = [(LAMP, true), (PUMP, false), (200, false)];

fn instrument_named<A: Allocator>(plan: &Plan<A>, name: &[u8]) -> Option<u8> {
    Some(plan.instrument_named(name)?.0)
}

fn job_named<A: Allocator>(plan: &Plan<A>, name: &[u8]) -> Option<u8> {
    Some(plan.job_named(name)?.0)
}

fn check_names<A: Allocator>(rt: &impl Abort, plan: &Plan<A>) {
    for &(name, instrument, job) in &NAMED {
        let came = (instrument_named(plan, name), job_named(plan, name));
        check(rt, name, came, (instrument, job));
    }
    assert!(rt; plan.jobs() == 3);
    for &(instrument, names) in &OF_THIRD {
        let came = plan.names(JobNo(2), InstrumentNo(instrument));
        check(rt, instrument, came, names);
    }
}

#[test]
fn knows_names(rt: HostRuntime) {
    offer_to_example(&rt, rt.alloc(), &[], Looked::AtNames);
}

/// After a session was added, or refused for want of memory: then nothing is changed, and it goes through now that there is room.
fn check_tried<A: Allocator>(
    rt: &impl Abort,
    free: usize,
    plan: &mut Plan<A>,
    refused: Option<MoreRefusal>,
) {
    if refused.is_some() {
        check(rt, free, refused, Some(MoreRefusal::NoMemory));
        check_example(rt, plan);
        check(rt, free, add(rt, plan, 0, None, &THIRD), None);
    }
    check_added(rt, free, plan);
}

/// Adds a session while so many blocks of a heap are free, and tells whether that was refused.
fn add_with_room(rt: &impl Abort, alloc: Global, free: usize) -> bool {
    let heap = heap_of(rt, alloc, 32768);
    let mut plan = plan_of(rt, PlanBuilder::new(&heap), &EXAMPLE);
    let mut blocks = fill(rt, alloc, &heap);
    for _ in 0..free {
        let _ = blocks.pop();
    }
    let refused = add(rt, &mut plan, 0, None, &THIRD);
    drop(blocks);
    check_tried(rt, free, &mut plan, refused);
    refused.is_some()
}

/// One block more is free each time, so that each allocation in turn is the first that is refused.
#[test]
fn one_more_session_without_memory(rt: HostRuntime) {
    let mut refused = 0u32;
    for free in 0..60usize {
        let was = add_with_room(&rt, rt.alloc(), free);
        refused = refused.saturating_add(was as u32);
    }
    assert!(rt; refused > 0 && refused < 60);
}
