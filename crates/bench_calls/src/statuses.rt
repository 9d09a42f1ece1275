//! The statuses, and what is told with them of what a lab answered.
ghost use Rattle.std.specs.Prelude.{◌≡◌, if◌then◌else◌, length};
ghost use Rattle.c_tells.specs.Telling.{Gives};
ghost use Rattle.bench_calls.specs.Telling.{stage_status, TellsEntry, TellsDid, TellsRetired, TellsRelease, TellsAs, IfTold};
ghost use Rattle.bench_calls.specs.Telling.{turned_of, came_of, session_of, state_of, planned_of, keepers_of, outside_of};

use crate::told::{
    LabCame, LabEntry, LabKeepers, LabOutside, LabPlanned, LabSession, LabState, LabTurned,
    came_of, entry_of, keepers_of, outside_of, planned_of, session_of, state_of, turned_of,
};
use c_tells::put;
use instrument_log::Entry;
use live_lab::{Came, Keepers, Planned, Release, SessionFacts, Stage, Standing};
use session_layer::Turned;

/// The status if there is no such job, session or instrument.
pub const NO_JOB: u32 = 2;

pub(crate) const NO_MEMORY: u32 = 5;

/// The status if what was asked for isn't so.
pub const NOT_NOW: u32 = 8;

const SESSIONS_LEFT: u32 = 10;

/// The status if a lab keeps its steps and has no room for those of one more call.
pub(crate) const JOURNAL_FULL: u32 = 12;

/// The status if the job has retired.
pub(crate) const RETIRED: u32 = 14;

/// The status that says whether a session, or a place outside, was given up.
pub fn withdrew(did: bool) -> u32
    ensures { result ≡ (if did then 0 else 8) }
{
    if did { 0 } else { NOT_NOW }
}

/// The status that says how far a job is on its way to be retired.
pub fn stage_status(stage: Stage) -> u32
    ensures { result ≡ stage_status stage }
{
    match stage {
        Stage::There => 0,
        Stage::OnTheWay => NOT_NOW,
        Stage::Barred => SESSIONS_LEFT,
    }
}

/// Tells the entry of a command that was done.
pub fn tell_entry(entry: Option<Entry>, told: &mut LabEntry) -> u32
    ensures { TellsEntry entry told.old told.new result }
{
    match entry {
        Some(entry) => {
            *told = entry_of(entry);
            0
        }
        None => NOT_NOW,
    }
}

// Each of these tells what a lab answered, or that there is no such job.

pub(crate) fn tell_command(answer: Option<Option<Entry>>, told: &mut LabEntry) -> u32
    ensures { IfTold TellsEntry answer told.old told.new result }
{
    match answer {
        Some(entry) => tell_entry(entry, told),
        None => NO_JOB,
    }
}

pub(crate) fn tell_withdrew(answer: Option<bool>) -> u32
    ensures { IfTold TellsDid answer tt tt result }
{
    match answer {
        Some(did) => withdrew(did),
        None => NO_JOB,
    }
}

pub(crate) fn tell_retired(answer: Option<(Stage, Turned)>, told: &mut LabTurned) -> u32
    ensures { IfTold TellsRetired answer told.old told.new result }
{
    let Some((stage, turned)) = answer else {
        return NO_JOB
    };
    *told = turned_of(turned);
    stage_status(stage)
}

pub(crate) fn tell_release(answer: Option<Release>, told: &mut LabTurned) -> u32
    ensures { IfTold TellsRelease answer told.old told.new result }
{
    match answer {
        Some(Release::LetGo(turned)) => {
            *told = turned_of(turned);
            0
        }
        Some(Release::NotHeld) => NOT_NOW,
        None => NO_JOB,
    }
}

pub(crate) fn tell_session(answer: Option<SessionFacts>, told: &mut LabSession) -> u32
    ensures { IfTold (TellsAs session_of) answer told.old told.new result }
{
    let Some(answer) = answer else { return NO_JOB };
    *told = session_of(answer);
    0
}

pub(crate) fn tell_planned(answer: Option<Planned>, told: &mut LabPlanned) -> u32
    ensures { IfTold (TellsAs planned_of) answer told.old told.new result }
{
    let Some(answer) = answer else { return NO_JOB };
    *told = planned_of(answer);
    0
}

pub(crate) fn tell_standing(answer: Option<Standing>, told: &mut LabState) -> u32
    ensures { IfTold (TellsAs state_of) answer told.old told.new result }
{
    let Some(answer) = answer else { return NO_JOB };
    *told = state_of(answer);
    0
}

pub(crate) fn tell_keepers(answer: Option<Keepers>, told: &mut LabKeepers) -> u32
    ensures { IfTold (TellsAs keepers_of) answer told.old told.new result }
{
    let Some(answer) = answer else { return NO_JOB };
    *told = keepers_of(answer);
    0
}

pub(crate) fn tell_outside(answer: Option<Option<u32>>, told: &mut LabOutside) -> u32
    ensures { IfTold (TellsAs outside_of) answer told.old told.new result }
{
    let Some(answer) = answer else { return NO_JOB };
    *told = outside_of(answer);
    0
}

/// Tells the length of a name, and puts it into the room, if it has room for it.
pub(crate) fn tell_name(name: &[u8], room: &mut [u8], written: &mut usize) -> u32
    ensures length { written.new ≡ length name.now }
    ensures gives { Gives 0 name.now room.old room.new result }
{
    *written = name.len();
    put(0, name, room)
}

/// Tells what came of a settle.
pub(crate) fn tell_came(came: Came, told: &mut LabCame) -> u32
    ensures { TellsAs came_of came told.old told.new result }
{
    *told = came_of(came);
    0
}
