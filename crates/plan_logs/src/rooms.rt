//! Empty logs with room for all that a plan puts into them.
ghost use Rattle.std.specs.Prelude.{◌≡◌, ℕ, ◌+◌, ◌<◌, ◌≤◌, length, slice_index_or, IfOk};
ghost use Rattle.lab_plan.specs.IsPlan.{IsPlan};
ghost use Rattle.lab_plan.specs.LabPlan.{sessions, part};
ghost use Rattle.plan_logs.specs.Logs.{empty_logs};
ghost use Rattle.plan_logs.specs.Rooms.{on_by, AreAdded, AreRooms};

use instrument_log::InstrumentLog;
use lab_plan::{JobNo, Plan};
use std::alloc::{AllocError, Allocator};

/// Adds to each instrument's number how many commands of a session are on it.
fn add_session<A: Allocator>(plan: &Plan<A>, job: JobNo, session: u32, rooms: &mut Vec<u32, A>)
    requires is_job { job < length plan.now.jobs }
    requires begun { 1 ≤ session }
    requires is_session { session ≤ length (sessions plan.now job) }
    requires wide { length rooms.old.items ≡ length plan.now.instruments }
    requires few { (i : ℕ) → i < length plan.now.instruments → slice_index_or rooms.old.items i 0 + part plan.now job session i ≤ 100000 }
    ensures { AreAdded (part plan.now job session) rooms.old.items rooms.new.items }
{
    for (instrument, _) in plan.commands(job, session) {
        rooms[instrument.0 as usize] += 1;
    }
}

/// Adds how many commands of a job are on each instrument.
fn add_job<A: Allocator>(plan: &Plan<A>, job: JobNo, rooms: &mut Vec<u32, A>)
    requires is_job { job < length plan.now.jobs }
    requires wide { length rooms.old.items ≡ length plan.now.instruments }
    requires few { (i : ℕ) → i < length plan.now.instruments → slice_index_or rooms.old.items i 0 + on_by plan.now i job ≤ 100000 }
    ensures { AreAdded (λ i. on_by plan.now i job) rooms.old.items rooms.new.items }
{
    for before in 0..plan.sessions(job) {
        add_session(plan, job, before + 1, rooms);
    }
}

/// How many commands of the plan are on each instrument.
fn rooms<A: Allocator + Copy>(alloc: A, plan: &Plan<A>) -> Result<Vec<u32, A>, AllocError>
    ensures { IfOk result (λ rooms. AreRooms plan.now rooms.items) }
{
    let mut rooms = vec![in alloc; 0; plan.instruments()]?;
    for job in 0..plan.jobs() {
        add_job(plan, JobNo(job as u8), &mut rooms);
    }
    Ok(rooms)
}

/// An empty log for each instrument, with room for the plan's commands on it.
pub fn empty_logs<A: Allocator + Copy>(
    alloc: A,
    plan: &Plan<A>,
) -> Result<Vec<InstrumentLog<A>, A>, AllocError>
    ensures { IfOk result (λ logs. logs.items ≡ empty_logs plan.now) }
{
    let rooms = rooms(alloc, plan)?;
    let mut logs = Vec::new(alloc);
    for number in 0..plan.instruments() {
        logs.push(InstrumentLog::with_room(alloc, rooms[number] as usize)?)?;
    }
    Ok(logs)
}
