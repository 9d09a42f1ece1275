//! Sessions that come while a lab is open, and their lines for its journal.
ghost use Rattle.std.specs.Prelude.{◌≡◌, Err};
ghost use Rattle.bench_calls.specs.Calls.{InLab};
ghost use Rattle.bench_calls.specs.Telling.{IfTold};
ghost use Rattle.bench_calls.specs.Coming.{keeps, TellsAdded, Comes, TellsMore};

use crate::handle::{Handle, NOT_OPEN, put, take};
use crate::inside::Inside;
use crate::statuses::{JOURNAL_FULL, NO_JOB, NO_MEMORY, NOT_NOW, RETIRED, tell_name};
use c_tells::{Told, fail};
use journal_texts::more_text;
use lab_journal::{NoRoom, make_room};
use lab_plan::JobNo;
use lab_program::RunFault;
use live_lab::{Lab, NotAdded};
use std::alloc::Global;

/// Whether the lab keeps its steps for a journal.
fn keeps(lab: &Lab) -> bool
    ensures { result ≡ keeps lab.now }
{
    let world = lab.world();
    world.kept_room() > 0 || !world.kept().is_empty()
}

/// Tells why not all sessions were added.
fn tell_why(why: NotAdded, told: &mut Told) -> u32
    ensures { TellsAdded (Err why) told.old told.new result }
{
    match why {
        NotAdded::HasRetired => RETIRED,
        NotAdded::Fault(fault) => fail(RunFault::Script(fault), told),
        NotAdded::NoMemory(added) => {
            *told = Told {
                written: added,
                line: 0,
                cause: 0,
            };
            NO_MEMORY
        }
    }
}

fn tell_added(answer: Option<Result<(), NotAdded>>, told: &mut Told) -> u32
    ensures { IfTold TellsAdded answer told.old told.new result }
{
    match answer {
        None => NO_JOB,
        Some(Ok(())) => 0,
        Some(Err(why)) => tell_why(why, told),
    }
}

#[tactic(auto, unfolding(crate::specs::Coming::Comes))]
fn add_in(alloc: Global, lab: &mut Lab, job: u32, text: &[u8], told: &mut Told) -> u32
    ensures { Comes text.now job lab.old lab.new told.old told.new result }
{
    match make_room(lab, alloc, text) {
        Ok(()) => tell_added(lab.add(alloc, job as usize, text), told),
        Err(NoRoom::HasSteps) => JOURNAL_FULL,
        Err(NoRoom::NoMemory) => fail(RunFault::NoMemory, told),
    }
}

/// Adds the sessions of a text behind the others of a job. It takes memory.
pub fn add(alloc: Global, bench: &mut Handle, job: u32, text: &[u8], told: &mut Told) -> u32
    ensures { InLab (Comes text.now job) bench.old.slot.held bench.new.slot.held told.old told.new result }
{
    let mut inside = match take(&mut bench.slot, &mut bench.live, alloc) {
        Ok(inside) => inside,
        Err(status) => return status,
    };
    let status = match &mut *inside {
        Inside::Open(lab) => add_in(alloc, lab, job, text, told),
        _ => NOT_OPEN,
    };
    put(&mut bench.slot, &mut bench.live, inside);
    status
}

/// Puts the lines of a session of a job into the room, and tells their length, if the lab keeps its steps.
fn tell_more(
    alloc: Global,
    lab: &Lab,
    job: u32,
    session: u32,
    room: &mut [u8],
    written: &mut usize,
) -> u32
    ensures { TellsMore job session lab.now lab.now (room.old, written.old) (room.new, written.new) result }
{
    if !keeps(lab) {
        return NOT_NOW;
    }
    let plan = lab.world().plan();
    if plan.jobs() <= job as usize {
        return NO_JOB;
    }
    let number = JobNo(job as u8);
    if session == 0 || plan.sessions(number) < session {
        return NO_JOB;
    }
    match more_text(alloc, plan, number, session) {
        Ok(text) => tell_name(text.as_slice(), room, written),
        Err(_) => NO_MEMORY,
    }
}

/// Puts the lines of a session of a job into the room, for the journal, and tells their length.
pub fn more(
    alloc: Global,
    bench: &mut Handle,
    job: u32,
    session: u32,
    room: &mut [u8],
    written: &mut usize,
) -> u32
    ensures { InLab (TellsMore job session) bench.old.slot.held bench.new.slot.held (room.old, written.old) (room.new, written.new) result }
{
    let inside = match take(&mut bench.slot, &mut bench.live, alloc) {
        Ok(inside) => inside,
        Err(status) => return status,
    };
    let status = match &*inside {
        Inside::Open(lab) => tell_more(alloc, lab, job, session, room, written),
        _ => NOT_OPEN,
    };
    put(&mut bench.slot, &mut bench.live, inside);
    status
}
