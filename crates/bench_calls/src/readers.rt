//! Calls that tell of the lab of a handle and change nothing in it.
ghost use Rattle.bench_calls.specs.Calls.{InLab, TellsSize, TellsSession, TellsPlanned, TellsState, TellsKeepers};
ghost use Rattle.bench_calls.specs.Calls.{TellsOutside, TellsJobName, TellsInstrumentName};

use crate::handle::{Handle, NOT_OPEN, put, take};
use crate::inside::Inside;
use crate::statuses::{
    NO_JOB, tell_keepers, tell_name, tell_outside, tell_planned, tell_session, tell_standing,
};
use crate::told::{LabKeepers, LabOutside, LabPlanned, LabSession, LabSize, LabState};
use std::alloc::Global;

/// Tells how many jobs and instruments there are.
pub fn size(alloc: Global, bench: &mut Handle, size: &mut LabSize) -> u32
    ensures { InLab TellsSize bench.old.slot.held bench.new.slot.held size.old size.new result }
{
    let inside = match take(&mut bench.slot, &mut bench.live, alloc) {
        Ok(inside) => inside,
        Err(status) => return status,
    };
    let status = match &*inside {
        Inside::Open(lab) => {
            *size = LabSize {
                jobs: lab.jobs(),
                instruments: lab.instruments(),
            };
            0
        },
        _ => NOT_OPEN,
    };
    put(&mut bench.slot, &mut bench.live, inside);
    status
}

/// Puts the name of a job into the room, and tells its length.
pub fn job_name(
    alloc: Global,
    bench: &mut Handle,
    job: u32,
    name: &mut [u8],
    written: &mut usize,
) -> u32
    ensures { InLab (TellsJobName job) bench.old.slot.held bench.new.slot.held (name.old, written.old) (name.new, written.new) result }
{
    let inside = match take(&mut bench.slot, &mut bench.live, alloc) {
        Ok(inside) => inside,
        Err(status) => return status,
    };
    let status = match &*inside {
        Inside::Open(lab) => match lab.job_name(job) {
            Some(text) => tell_name(text, name, written),
            None => NO_JOB,
        },
        _ => NOT_OPEN,
    };
    put(&mut bench.slot, &mut bench.live, inside);
    status
}

/// Puts the name of an instrument into the room, and tells its length.
pub fn instrument_name(
    alloc: Global,
    bench: &mut Handle,
    instrument: u32,
    name: &mut [u8],
    written: &mut usize,
) -> u32
    ensures { InLab (TellsInstrumentName instrument) bench.old.slot.held bench.new.slot.held (name.old, written.old) (name.new, written.new) result }
{
    let inside = match take(&mut bench.slot, &mut bench.live, alloc) {
        Ok(inside) => inside,
        Err(status) => return status,
    };
    let status = match &*inside {
        Inside::Open(lab) => match lab.instrument_name(instrument) {
            Some(text) => tell_name(text, name, written),
            None => NO_JOB,
        },
        _ => NOT_OPEN,
    };
    put(&mut bench.slot, &mut bench.live, inside);
    status
}

/// Tells what a job's session needs; sessions are counted from 1.
pub fn session(
    alloc: Global,
    bench: &mut Handle,
    job: u32,
    session: u32,
    what: &mut LabSession,
) -> u32
    ensures { InLab (TellsSession job session) bench.old.slot.held bench.new.slot.held what.old what.new result }
{
    let inside = match take(&mut bench.slot, &mut bench.live, alloc) {
        Ok(inside) => inside,
        Err(status) => return status,
    };
    let status = match &*inside {
        Inside::Open(lab) => tell_session(lab.session(job, session), what),
        _ => NOT_OPEN,
    };
    put(&mut bench.slot, &mut bench.live, inside);
    status
}

/// Tells a command of a job's session, as the script has it; commands are counted from 0.
pub fn planned(
    alloc: Global,
    bench: &mut Handle,
    job: u32,
    session: u32,
    place: u32,
    what: &mut LabPlanned,
) -> u32
    ensures { InLab (TellsPlanned job session place) bench.old.slot.held bench.new.slot.held what.old what.new result }
{
    let inside = match take(&mut bench.slot, &mut bench.live, alloc) {
        Ok(inside) => inside,
        Err(status) => return status,
    };
    let status = match &*inside {
        Inside::Open(lab) => tell_planned(lab.planned(job, session, place), what),
        _ => NOT_OPEN,
    };
    put(&mut bench.slot, &mut bench.live, inside);
    status
}

/// Tells how far a job is.
pub fn state(alloc: Global, bench: &mut Handle, job: u32, state: &mut LabState) -> u32
    ensures { InLab (TellsState job) bench.old.slot.held bench.new.slot.held state.old state.new result }
{
    let inside = match take(&mut bench.slot, &mut bench.live, alloc) {
        Ok(inside) => inside,
        Err(status) => return status,
    };
    let status = match &*inside {
        Inside::Open(lab) => tell_standing(lab.standing(job as usize), state),
        _ => NOT_OPEN,
    };
    put(&mut bench.slot, &mut bench.live, inside);
    status
}

/// Tells which jobs keep a job waiting for an instrument, and which of these hold.
pub fn keepers(
    alloc: Global,
    bench: &mut Handle,
    job: u32,
    instrument: u32,
    what: &mut LabKeepers,
) -> u32
    ensures { InLab (TellsKeepers job instrument) bench.old.slot.held bench.new.slot.held what.old what.new result }
{
    let inside = match take(&mut bench.slot, &mut bench.live, alloc) {
        Ok(inside) => inside,
        Err(status) => return status,
    };
    let status = match &*inside {
        Inside::Open(lab) => tell_keepers(lab.keepers(job, instrument), what),
        _ => NOT_OPEN,
    };
    put(&mut bench.slot, &mut bench.live, inside);
    status
}

/// Tells whether a job waits outside, and how often it has been passed by.
pub fn outside(alloc: Global, bench: &mut Handle, job: u32, outside: &mut LabOutside) -> u32
    ensures { InLab (TellsOutside job) bench.old.slot.held bench.new.slot.held outside.old outside.new result }
{
    let inside = match take(&mut bench.slot, &mut bench.live, alloc) {
        Ok(inside) => inside,
        Err(status) => return status,
    };
    let status = match &*inside {
        Inside::Open(lab) => tell_outside(lab.outside(job as usize), outside),
        _ => NOT_OPEN,
    };
    put(&mut bench.slot, &mut bench.live, inside);
    status
}
