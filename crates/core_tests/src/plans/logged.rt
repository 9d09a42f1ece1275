//! The logs of a plan: as many and as roomy as its commands, the next command of a job, and the entry that it adds.
ghost use Rattle.plan_logs.specs.Logs.{IsAtCommand};

use crate::logs::last_of;
use crate::rows::check;
use instrument_log::{Entry, InstrumentLog, turned};
use lab_plan::{InstrumentNo, JobNo, Plan, Verb};
use legal_steps::{Dining, Drinking, JobState};
use plan_logs::{empty_logs, next_command, next_entry, push};
use std::alloc::Allocator;
use std::process::Abort;

/// Job 0 in its first session, with this many commands done.
fn see_command<A: Allocator>(rt: &impl Abort, plan: &Plan<A>, position: u32) -> JobState
    ensures { IsAtCommand plan.now 0 result }
{
    assert!(rt; 0 < plan.jobs());
    assert!(rt; 1 <= plan.sessions(JobNo(0)));
    assert!(rt; (position as usize) < plan.commands(JobNo(0), 1).len());
    JobState {
        dining: Dining::Thinking,
        drinking: Drinking::Drinking,
        session: 1,
        position,
    }
}

/// Its next command.
fn command<A: Allocator>(rt: &impl Abort, plan: &Plan<A>, position: u32) -> (InstrumentNo, Verb) {
    let phase = see_command(rt, plan, position);
    next_command(plan, JobNo(0), phase)
}

/// The entry of that command, behind the entries of the log.
fn entry<A: Allocator>(
    rt: &impl Abort,
    plan: &Plan<A>,
    position: u32,
    log: &InstrumentLog<A>,
) -> Entry {
    let phase = see_command(rt, plan, position);
    next_entry(plan, JobNo(0), phase, log)
}

/// Adds an entry that is the first of a log.
#[tactic(auto, using(crate::proofs::FirstEntry::may_begin))]
fn begin<A: Allocator>(rt: &impl Abort, log: &mut InstrumentLog<A>, entry: &Entry) {
    assert!(rt; log.is_empty() && log.room() > 0 && entry.place == 1);
    assert!(rt; entry.is_within_limits() && entry.value == turned(entry.verb, log.value()));
    push(log, entry);
}

/// The entry of the first session of job 0 on the lamp, which has three commands there.
fn of_lamp(place: u32, verb: Verb) -> Entry {
    Entry {
        job: JobNo(0),
        session: 1,
        place,
        length: 3,
        verb,
        value: 1,
    }
}

fn check_room<A: Allocator>(rt: &impl Abort, log: &InstrumentLog<A>, room: usize) {
    check(rt, room, (log.room(), log.is_empty()), (room, true));
}

/// On lamp, pump, scale and oven there are five commands, three, one and two.
const ROOMS: [usize; 4] = [5, 3, 1, 2];

fn check_rooms<A: Allocator>(rt: &impl Abort, logs: &[InstrumentLog<A>]) {
    for (log, &room) in logs.iter().zip(&ROOMS) {
        check_room(rt, log, room);
    }
}

/// Job 0 sets the lamp to 1 in its first session, and reads it in the fifth command.
fn check_lamp<A: Allocator>(rt: &impl Abort, plan: &Plan<A>, logs: &mut [InstrumentLog<A>]) {
    assert!(rt; logs.len() == 4);
    let log = &mut logs[0];
    let first = entry(rt, plan, 0, log);
    check(rt, 0, command(rt, plan, 0), (InstrumentNo(0), Verb::Set(1)));
    check(rt, 3, command(rt, plan, 3), (InstrumentNo(2), Verb::Read));
    check(rt, 0, first, of_lamp(1, Verb::Set(1)));
    begin(rt, log, &first);
    check(rt, "the lamp", (log.len(), log.value()), (1, 1));
    check(rt, 0, last_of(rt, log), first);
    check(rt, 4, entry(rt, plan, 4, log), of_lamp(3, Verb::Read));
}

pub(super) fn check_logs<A: Allocator + Copy>(rt: &impl Abort, alloc: A, plan: &Plan<A>) {
    let Ok(mut logs) = empty_logs(alloc, plan) else {
        panic!(rt; "no logs");
    };
    check_rooms(rt, &logs);
    check_lamp(rt, plan, &mut logs);
}
