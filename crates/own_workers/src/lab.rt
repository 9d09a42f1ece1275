//! The plan: a robot brings a sample to each of two stations, the stations weigh them, and an inspector looks at both.
use lab_plan::{Plan, PlanBuilder, Verb, is_name};
use std::alloc::Global;

pub(crate) const JOBS: [&str; 4] = ["robot", "station-a", "station-b", "inspector"];

pub(crate) const INSTRUMENTS: [&str; 4] = ["arm", "bench-a", "bench-b", "scale"];

#[derive(Clone, Copy)]
enum Line {
    Job(&'static str),
    Session,
    Command(&'static str, Verb),
}

const LINES: [Line; 20] = [
    Line::Job("robot"),
    Line::Session,
    Line::Command("arm", Verb::Add(1)),
    Line::Command("bench-a", Verb::Set(1)),
    Line::Session,
    Line::Command("arm", Verb::Add(1)),
    Line::Command("bench-b", Verb::Set(2)),
    Line::Job("station-a"),
    Line::Session,
    Line::Command("bench-a", Verb::Add(10)),
    Line::Command("scale", Verb::Add(1)),
    Line::Job("station-b"),
    Line::Session,
    Line::Command("bench-b", Verb::Add(10)),
    Line::Command("scale", Verb::Add(1)),
    Line::Job("inspector"),
    Line::Session,
    Line::Command("bench-a", Verb::Read),
    Line::Command("bench-b", Verb::Read),
    Line::Command("scale", Verb::Read),
];

// What a call of the builder asks is tested right before it: then nothing about the lines has to be proved.

fn put_job(builder: &mut PlanBuilder, name: &[u8]) -> bool {
    if !is_name(name) {
        return false;
    }
    builder.job(name).is_ok()
}

fn put_session(builder: &mut PlanBuilder) -> bool {
    if !builder.has_job() {
        return false;
    }
    builder.session().is_ok()
}

fn put_command(builder: &mut PlanBuilder, name: &[u8], verb: Verb) -> bool {
    if !is_name(name) {
        return false;
    }
    if !verb.fits() {
        return false;
    }
    if !builder.has_session() {
        return false;
    }
    builder.command(name, verb).is_ok()
}

fn put(builder: &mut PlanBuilder, line: Line) -> bool {
    match line {
        Line::Job(name) => put_job(builder, name.as_bytes()),
        Line::Session => put_session(builder),
        Line::Command(name, verb) => put_command(builder, name.as_bytes(), verb),
    }
}

/// The plan, or none if there is no memory.
pub(crate) fn planned(alloc: Global) -> Option<Plan> {
    let mut builder = PlanBuilder::new(alloc);
    for line in LINES {
        if !put(&mut builder, line) {
            return None;
        }
    }
    match builder.finish() {
        Ok(plan) => Some(plan),
        Err(_) => None,
    }
}
