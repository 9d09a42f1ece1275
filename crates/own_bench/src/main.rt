//! The bench in ten lines: two jobs share a scale, take turns on one thread, and what they did there is printed.
#![tactic(auto)]

ghost use Rattle.std.specs.Prelude.{◌<◌, length};

use desk_user::open;
use edge_rule::Closed;
use lab_plan::{InstrumentNo, JobNo, Plan, PlanBuilder, PlanRefusal, Verb};
use rounds::rounds;
use std::alloc::Global;
use std::io;

/// Jobs and instruments are counted from 0, in the order in which the plan names them.
const WEIGH: JobNo = JobNo(0);

const SCALE: InstrumentNo = InstrumentNo(0);

#[derive(Debug, Drop)]
enum Stopped {
    NoPlan(PlanRefusal),
    NoMemory,
    NotPrinted(io::Error),
}

/// A builder takes a plan line by line, as a script has it, and refuses what a plan can't have. That each name is one, and each
/// command stands in a session, is proved here; a name is no reserved word, which the prover sees once it looks into that word.
#[tactic(auto, unfolding(lab_plan::specs::Names::is_reserved))]
fn planned(alloc: Global) -> Result<Plan, PlanRefusal> {
    let mut builder = PlanBuilder::new(alloc);
    builder.job(b"weigh")?;
    builder.session()?;
    builder.command(b"scale", Verb::Set(5))?;
    builder.command(b"scale", Verb::Add(2))?;
    builder.job(b"check")?;
    builder.session()?;
    builder.command(b"scale", Verb::Read)?;
    match builder.finish() {
        Ok(plan) => Ok(plan),
        Err((cause, _)) => Err(cause),
    }
}

fn name_of(job: JobNo) -> &'static str {
    if job == WEIGH { "weigh" } else { "check" }
}

/// A log is read entry by entry, the oldest first.
fn print_log(rt: &impl Print, closed: &Closed, instrument: InstrumentNo) -> io::Result<()>
    requires { instrument < length closed.now.plan.instruments }
{
    let log = closed.log(instrument);
    for index in 0..log.len() {
        let entry = log.entry(index);
        let name = name_of(entry.job);
        let session = entry.session;
        let place = entry.place;
        let length = entry.length;
        let verb = entry.verb;
        let value = entry.value;
        println!(rt; "{name} {session}: {place} of {length}, {verb:?} = {value}")?;
    }
    Ok(())
}

/// The ten lines.
fn run(rt: &impl Print, alloc: Global) -> Result<(), Stopped> {
    // What the jobs are to do. It outlives the bench, which borrows it.
    let plan = planned(alloc).map_err(Stopped::NoPlan)?;
    // A bench, and a desk for each job. Each desk is of this bench and each job has one: that is what `rounds` and `close` ask.
    let (bench, mut desks) = open(alloc, &plan).map_err(|_| Stopped::NoMemory)?;
    // One turn of each job a round, until all are retired; no more than 100 rounds, so that it ends in any case.
    let (ended, number) = rounds(&bench, desks.as_mut_slice(), 100);
    println!(rt; "{ended:?} after {number} rounds").map_err(Stopped::NotPrinted)?;
    // The bench takes its desks back, and leaves the logs. Only memory can fail: all desks are there.
    let Ok(closed) = bench.close(alloc, desks) else {
        return Err(Stopped::NoMemory);
    };
    // The plan has an instrument: whoever asks for its log shows it, here by a test.
    if closed.plan().instruments() == 0 {
        return Ok(());
    }
    print_log(rt, &closed, SCALE).map_err(Stopped::NotPrinted)
}

fn main(rt: HostRuntime) -> Result<(), Stopped> {
    run(&rt, rt.alloc())
}
