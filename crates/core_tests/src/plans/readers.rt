//! Readers of a plan: each on its happy path, at the largest conflict graph and at the longest session.
use super::logged::check_logs;
use super::{Line, counts, finished, name_of, plan_of, put_all, put_commands};
use crate::asked::{
    bottle_of, edge_of, ends_of, instrument_of, job_of, needed_of, part_of, place_of, session_of,
};
use crate::rows::check;
use lab_plan::{EdgeNo, InstrumentNo, JobNo, Place, Plan, PlanBuilder, Verb};
use std::alloc::Allocator;
use std::process::Abort;

/// Three jobs that meet in pairs, and one that is alone.
const MEETING: [Line<'static>; 20] = [
    Line::Job(b"mix"),
    Line::Session,
    Line::Command(b"lamp", Verb::Set(1)),
    Line::Command(b"pump", Verb::Read),
    Line::Command(b"lamp", Verb::Add(2)),
    Line::Command(b"scale", Verb::Read),
    Line::Command(b"lamp", Verb::Read),
    Line::Patient(7),
    Line::Command(b"pump", Verb::Read),
    Line::Job(b"heat"),
    Line::Session,
    Line::Command(b"oven", Verb::Set(3)),
    Line::Command(b"lamp", Verb::Read),
    Line::Job(b"alone"),
    Line::Job(b"wash"),
    Line::Session,
    Line::Command(b"pump", Verb::Read),
    Line::Command(b"lamp", Verb::Read),
    Line::Session,
    Line::Command(b"oven", Verb::Read),
];

/// Its edges, with their ends and how many bottles each has.
fn check_edges<A: Allocator>(rt: &impl Abort, plan: &Plan<A>) {
    for (edge, a, b, bottles) in [(0, 0, 1, 1), (1, 0, 3, 2), (2, 1, 3, 2)] {
        let wanted = ((JobNo(a), JobNo(b)), bottles);
        check(rt, edge, ends_of(rt, plan, edge), wanted);
    }
}

/// The names of its jobs, how many sessions each has, and the edges of each.
fn check_jobs<A: Allocator>(rt: &impl Abort, plan: &Plan<A>) {
    let (mix, heat, wash) = (
        [EdgeNo(0), EdgeNo(1)],
        [EdgeNo(0), EdgeNo(2)],
        [EdgeNo(1), EdgeNo(2)],
    );
    check(rt, 0, job_of(rt, plan, 0), (b"mix", 2, &mix));
    check(rt, 1, job_of(rt, plan, 1), (b"heat", 1, &heat));
    check(rt, 2, job_of(rt, plan, 2), (b"alone", 0, &[]));
    check(rt, 3, job_of(rt, plan, 3), (b"wash", 2, &wash));
}

fn check_neighbours<A: Allocator>(rt: &impl Abort, plan: &Plan<A>) {
    for (a, b, edge) in [
        (0, 3, Some(EdgeNo(1))),
        (3, 1, Some(EdgeNo(2))),
        (2, 3, None),
        (0, 0, None),
    ] {
        check(rt, (a, b), edge_of(rt, plan, a, b), edge);
    }
}

/// Of its instruments lamp is number 0, pump 1, scale 2 and oven 3.
fn check_bottles<A: Allocator>(rt: &impl Abort, plan: &Plan<A>) {
    for (edge, instrument, bottle) in [(1, 1, Some(1)), (1, 2, None), (0, 1, None)] {
        let came = bottle_of(rt, plan, edge, instrument);
        check(rt, (edge, instrument), came, bottle);
    }
    check(rt, 0, instrument_of(rt, plan, 1, 0), InstrumentNo(0));
    check(rt, 1, instrument_of(rt, plan, 1, 1), InstrumentNo(1));
}

/// A job, one of its sessions, and what is wanted of it: its patience, its needs, and how many commands it has.
const SESSIONS: [(u8, u32, Option<u32>, u64, usize); 3] = [
    (0, 1, None, 0b0111, 5),
    (0, 2, Some(7), 0b0010, 1),
    (1, 1, None, 0b1001, 2),
];

fn check_sessions<A: Allocator>(rt: &impl Abort, plan: &Plan<A>) {
    for &(job, session, patience, needs, length) in &SESSIONS {
        let (p, n, commands) = session_of(rt, plan, job, session);
        let wanted = (patience, needs, length);
        check(rt, (job, session), (p, n, commands.len()), wanted);
    }
}

/// A job, one of its sessions, an edge, and the bottles that are needed there: edge 1 has those of lamp and pump, and
/// edge 2 those of lamp and oven.
const NEEDED: [(u8, u32, u16, u32); 6] = [
    (0, 1, 1, 0b11),
    (0, 2, 1, 0b10),
    (3, 2, 1, 0b00),
    (1, 1, 2, 0b11),
    (3, 1, 2, 0b01),
    (3, 2, 2, 0b10),
];

fn check_needed<A: Allocator>(rt: &impl Abort, plan: &Plan<A>) {
    for &(job, session, edge, bottles) in &NEEDED {
        let came = needed_of(rt, plan, job, session, edge);
        check(rt, (job, session, edge), came, bottles);
    }
}

/// How many of the commands of the first session of job 0 are on an instrument.
fn check_parts<A: Allocator>(rt: &impl Abort, plan: &Plan<A>) {
    for (instrument, part) in [(0, 3), (1, 1), (3, 0)] {
        check(rt, instrument, part_of(rt, plan, 0, 1, instrument), part);
    }
}

/// The places of some commands of that session.
fn check_places<A: Allocator>(rt: &impl Abort, plan: &Plan<A>) {
    for (position, place, length) in [(0, 1, 3), (3, 1, 1), (4, 3, 3)] {
        let came = place_of(rt, plan, 0, 1, position);
        check(rt, position, came, Place { place, length });
    }
}

fn check_meeting<A: Allocator>(rt: &impl Abort, plan: &Plan<A>) {
    check(rt, "version", plan.version(), 2);
    check(rt, "counts", counts(plan), (4, 4, 3));
    check_edges(rt, plan);
    check_jobs(rt, plan);
    check_neighbours(rt, plan);
    check_bottles(rt, plan);
    check_sessions(rt, plan);
    check_needed(rt, plan);
    check_parts(rt, plan);
    check_places(rt, plan);
}

fn read_meeting<A: Allocator + Copy>(rt: &impl Abort, alloc: A) {
    let plan = plan_of(rt, PlanBuilder::new_two(alloc), &MEETING);
    check_meeting(rt, &plan);
    check_logs(rt, alloc, &plan);
}

#[test]
fn each_reader_once(rt: HostRuntime) {
    read_meeting(&rt, rt.alloc());
}

/// 32 jobs that all name the same 28 instruments.
fn fill<A: Allocator + Copy>(rt: &impl Abort, builder: &mut PlanBuilder<A>) {
    for job in 0..32 {
        put_all(rt, builder, &[Line::Job(&name_of(job)), Line::Session]);
        put_commands(rt, builder, 28);
    }
}

fn check_full<A: Allocator>(rt: &impl Abort, plan: &Plan<A>) {
    let (_, _, edges) = job_of(rt, plan, 31);
    let last = ends_of(rt, plan, 495);
    check(rt, "counts", counts(plan), (32, 28, 496));
    check(rt, 495, last, ((JobNo(30), JobNo(31)), 28));
    check(rt, "0 and 31", edge_of(rt, plan, 31, 0), Some(EdgeNo(30)));
    check(rt, 31, edges.len(), 31);
    check(rt, 495, bottle_of(rt, plan, 495, 27), Some(27));
}

fn read_full<A: Allocator + Copy>(rt: &impl Abort, alloc: A) {
    let mut builder = PlanBuilder::new(alloc);
    fill(rt, &mut builder);
    check_full(rt, &finished(rt, builder));
}

#[test]
fn the_most_edges_and_bottles(rt: HostRuntime) {
    read_full(&rt, rt.alloc());
}

/// The lines of a session that names the lamp in every other command.
const PAIR: [Line<'static>; 2] = [
    Line::Command(b"lamp", Verb::Add(1)),
    Line::Command(b"pump", Verb::Read),
];

fn check_long<A: Allocator>(rt: &impl Abort, plan: &Plan<A>) {
    let (_, sessions, _) = job_of(rt, plan, 0);
    let (_, _, commands) = session_of(rt, plan, 0, 1);
    let length = 50_000;
    check(rt, "jobs and sessions", (plan.jobs(), sessions), (1, 1));
    check(rt, "commands", commands.len(), 100_000);
    for (position, place) in [(99_998, 50_000), (1, 1)] {
        let came = place_of(rt, plan, 0, 1, position);
        check(rt, position, came, Place { place, length });
    }
}

fn read_long<A: Allocator + Copy>(rt: &impl Abort, alloc: A) {
    let mut builder = PlanBuilder::new(alloc);
    put_all(rt, &mut builder, &[Line::Job(b"one"), Line::Session]);
    for _ in 0..50_000 {
        put_all(rt, &mut builder, &PAIR);
    }
    check_long(rt, &finished(rt, builder));
}

/// 100000 commands of one session.
#[test]
fn the_longest_session(rt: HostRuntime) {
    read_long(&rt, rt.alloc());
}
