//! Calls that do something in the lab of a handle.
ghost use Rattle.bench_calls.specs.Calls.{InLab, InRoom, SettlesAll, DoesNext, LetsGo, GivesUp, GoesToEnd, SetsOvertakes};

use crate::handle::{Handle, NOT_OPEN, put, take};
use crate::inside::Inside;
use crate::statuses::{
    JOURNAL_FULL, tell_came, tell_command, tell_release, tell_retired, tell_withdrew,
};
use crate::told::{LabCame, LabEntry, LabTurned};
use lab_journal::has_room;
use live_lab::Lab;
use std::alloc::Global;

// What is done in the lab, if it has room for the steps.

fn settle_in(lab: &mut Lab, waiting: u32, came: &mut LabCame) -> u32
    ensures { InRoom (SettlesAll waiting) lab.old lab.new came.old came.new result }
{
    if !has_room(lab) {
        return JOURNAL_FULL;
    }
    tell_came(lab.settle(waiting), came)
}

fn command_in(lab: &mut Lab, job: u32, entry: &mut LabEntry) -> u32
    ensures { InRoom (DoesNext job) lab.old lab.new entry.old entry.new result }
{
    if !has_room(lab) {
        return JOURNAL_FULL;
    }
    tell_command(lab.command(job as usize), entry)
}

fn end_in(lab: &mut Lab, job: u32, turned: &mut LabTurned) -> u32
    ensures { InRoom (LetsGo job) lab.old lab.new turned.old turned.new result }
{
    if !has_room(lab) {
        return JOURNAL_FULL;
    }
    tell_release(lab.end(job as usize), turned)
}

fn withdraw_in(lab: &mut Lab, job: u32) -> u32
    ensures { InRoom (GivesUp job) lab.old lab.new tt tt result }
{
    if !has_room(lab) {
        return JOURNAL_FULL;
    }
    tell_withdrew(lab.withdraw(job as usize))
}

fn retire_in(lab: &mut Lab, job: u32, most: u32, turned: &mut LabTurned) -> u32
    ensures { InRoom (GoesToEnd most job) lab.old lab.new turned.old turned.new result }
{
    if !has_room(lab) {
        return JOURNAL_FULL;
    }
    tell_retired(lab.retire(job as usize, most), turned)
}

/// Lets in the jobs of `waiting` that are due, each to its next session, and does all that can be done without a word from an owner.
pub fn settle(alloc: Global, bench: &mut Handle, waiting: u32, came: &mut LabCame) -> u32
    ensures { InLab (InRoom (SettlesAll waiting)) bench.old.slot.held bench.new.slot.held came.old came.new result }
{
    let mut inside = match take(&mut bench.slot, &mut bench.live, alloc) {
        Ok(inside) => inside,
        Err(status) => return status,
    };
    let status = match &mut *inside {
        Inside::Open(lab) => settle_in(lab, waiting, came),
        _ => NOT_OPEN,
    };
    put(&mut bench.slot, &mut bench.live, inside);
    status
}

/// Does the next command of the session that a job holds, and tells its entry.
pub fn command(alloc: Global, bench: &mut Handle, job: u32, entry: &mut LabEntry) -> u32
    ensures { InLab (InRoom (DoesNext job)) bench.old.slot.held bench.new.slot.held entry.old entry.new result }
{
    let mut inside = match take(&mut bench.slot, &mut bench.live, alloc) {
        Ok(inside) => inside,
        Err(status) => return status,
    };
    let status = match &mut *inside {
        Inside::Open(lab) => command_in(lab, job, entry),
        _ => NOT_OPEN,
    };
    put(&mut bench.slot, &mut bench.live, inside);
    status
}

/// Does the commands that are left of the session that a job holds, ends it, and does all that this makes due.
pub fn end(alloc: Global, bench: &mut Handle, job: u32, turned: &mut LabTurned) -> u32
    ensures { InLab (InRoom (LetsGo job)) bench.old.slot.held bench.new.slot.held turned.old turned.new result }
{
    let mut inside = match take(&mut bench.slot, &mut bench.live, alloc) {
        Ok(inside) => inside,
        Err(status) => return status,
    };
    let status = match &mut *inside {
        Inside::Open(lab) => end_in(lab, job, turned),
        _ => NOT_OPEN,
    };
    put(&mut bench.slot, &mut bench.live, inside);
    status
}

/// Jobs are let in after so many sessions that pass them by, from now on.
pub fn overtakes(alloc: Global, bench: &mut Handle, most: u32) -> u32
    ensures { InLab (SetsOvertakes most) bench.old.slot.held bench.new.slot.held tt tt result }
{
    let mut inside = match take(&mut bench.slot, &mut bench.live, alloc) {
        Ok(inside) => inside,
        Err(status) => return status,
    };
    let status = match &mut *inside {
        Inside::Open(lab) => {
            lab.set_overtakes(most);
            0
        }
        _ => NOT_OPEN,
    };
    put(&mut bench.slot, &mut bench.live, inside);
    status
}

/// A job that waits outside doesn't any more; of another one the session is given up that it is thirsty in, if it has a patience.
pub fn withdraw(alloc: Global, bench: &mut Handle, job: u32) -> u32
    ensures { InLab (InRoom (GivesUp job)) bench.old.slot.held bench.new.slot.held tt tt result }
{
    let mut inside = match take(&mut bench.slot, &mut bench.live, alloc) {
        Ok(inside) => inside,
        Err(status) => return status,
    };
    let status = match &mut *inside {
        Inside::Open(lab) => withdraw_in(lab, job),
        _ => NOT_OPEN,
    };
    put(&mut bench.slot, &mut bench.live, inside);
    status
}

/// Retires a job whose sessions are all done.
pub fn retire(alloc: Global, bench: &mut Handle, job: u32, most: u32, turned: &mut LabTurned) -> u32
    ensures { InLab (InRoom (GoesToEnd most job)) bench.old.slot.held bench.new.slot.held turned.old turned.new result }
{
    let mut inside = match take(&mut bench.slot, &mut bench.live, alloc) {
        Ok(inside) => inside,
        Err(status) => return status,
    };
    let status = match &mut *inside {
        Inside::Open(lab) => retire_in(lab, job, most, turned),
        _ => NOT_OPEN,
    };
    put(&mut bench.slot, &mut bench.live, inside);
    status
}
