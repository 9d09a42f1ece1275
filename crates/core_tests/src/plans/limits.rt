//! Names and verbs, and the limits of jobs and sessions with the refusals in their order. Cases of whole runs have each limit.
use super::{Line, name_of, put_one, put_sessions, refuse_line};
use crate::rows::check;
use lab_plan::name::{is_digit, is_name, is_same_name};
use lab_plan::{PlanBuilder, PlanRefusal, Verb};
use std::alloc::Allocator;
use std::process::Abort;

#[test]
fn names_are_told_apart(rt: HostRuntime) {
    check(&rt, "mix1", is_same_name(b"mix1", b"mix1"), true);
    for other in [b"mix2".as_slice(), b"nix1", b"mix", b"mix12", b""] {
        check(&rt, other, is_same_name(b"mix1", other), false);
    }
}

/// Which of these bytes are digits.
const BYTES: [(u8, bool); 11] = [
    (b'0', true),
    (b'1', true),
    (b'5', true),
    (b'9', true),
    (b'/', false),
    (b':', false),
    (b'a', false),
    (b'-', false),
    (b' ', false),
    (0, false),
    (255, false),
];

#[test]
fn digits_are_told(rt: HostRuntime) {
    for &(byte, is_one) in &BYTES {
        check(&rt, byte, is_digit(byte), is_one);
    }
}

/// A name, and what no script can have where a name stands.
const NAMES: [(&[u8], bool); 3] = [(b"a-b-c", true), (b"", false), (b"a b", false)];

#[test]
fn names_by_their_grammar(rt: HostRuntime) {
    for &(name, is_one) in &NAMES {
        check(&rt, name, is_name(name), is_one);
    }
}

#[test]
fn verbs_up_to_the_dial(rt: HostRuntime) {
    for (verb, fits) in [
        (Verb::Set(999_999), true),
        (Verb::Add(999_999), true),
        (Verb::Read, true),
        (Verb::Set(1_000_000), false),
        (Verb::Add(1_000_000), false),
    ] {
        check(&rt, verb, verb.fits(), fits);
    }
}

/// Whether it has a job and a session.
fn begun<A: Allocator + Copy>(builder: &PlanBuilder<A>) -> (bool, bool) {
    (builder.has_job(), builder.has_session())
}

fn put_32_jobs<A: Allocator + Copy>(rt: &impl Abort, builder: &mut PlanBuilder<A>) {
    for number in 0..32 {
        put_one(rt, builder, Line::Job(&name_of(number)));
    }
}

fn fill_with_jobs<A: Allocator + Copy>(rt: &impl Abort, builder: &mut PlanBuilder<A>) {
    let (more, twice) = (Line::Job(b"one-more"), Line::Job(b"aa"));
    check(rt, "version", builder.version(), 1);
    check(rt, "before", begun(builder), (false, false));
    put_32_jobs(rt, builder);
    check(rt, "after", begun(builder), (true, false));
    refuse_line(rt, builder, more, PlanRefusal::LimitPassed);
    // a job that is there comes before the limit
    refuse_line(rt, builder, twice, PlanRefusal::JobTwice);
    put_one(rt, builder, Line::Session);
    // an empty session comes before both
    refuse_line(rt, builder, twice, PlanRefusal::SessionEmpty);
    refuse_line(rt, builder, more, PlanRefusal::SessionEmpty);
}

#[test]
fn at_most_32_jobs(rt: HostRuntime) {
    fill_with_jobs(&rt, &mut PlanBuilder::new(rt.alloc()));
}

fn fill_with_sessions<A: Allocator + Copy>(rt: &impl Abort, builder: &mut PlanBuilder<A>) {
    put_one(rt, builder, Line::Job(b"one"));
    put_sessions(rt, builder, 999);
    put_one(rt, builder, Line::Patient(999_999));
    // an empty session comes before the limit
    refuse_line(rt, builder, Line::Session, PlanRefusal::SessionEmpty);
    refuse_line(rt, builder, Line::Patient(0), PlanRefusal::SessionEmpty);
    put_one(rt, builder, Line::Command(b"lamp", Verb::Read));
    refuse_line(rt, builder, Line::Session, PlanRefusal::LimitPassed);
    refuse_line(rt, builder, Line::Patient(0), PlanRefusal::LimitPassed);
    put_one(rt, builder, Line::Job(b"two"));
    put_one(rt, builder, Line::Session);
}

#[test]
fn at_most_1000_sessions_a_job(rt: HostRuntime) {
    fill_with_sessions(&rt, &mut PlanBuilder::new_two(rt.alloc()));
}
