//! What C calls: whole runs, in `runs`; and for a bench the calls of `bench_calls`, with their contracts.
#![tactic(auto)]

ghost use Rattle.std.specs.Prelude.{◌≡◌};
ghost use Rattle.lab_journal.specs.Taking.{IsOpenedKept};
ghost use Rattle.bench_calls.specs.Journals.{TellsJournal, Resumes};
ghost use Rattle.bench_calls.specs.Closing.{Closes, Frees};
ghost use Rattle.bench_calls.specs.Coming.{Comes, TellsMore};
ghost use Rattle.bench_calls.specs.Openings.{IsFresh};
ghost use Rattle.bench_calls.specs.Calls.{Opens, InLab, InRoom, TellsScript};
ghost use Rattle.bench_calls.specs.Calls.{SettlesAll, DoesNext, LetsGo, GivesUp, GoesToEnd, SetsOvertakes};
ghost use Rattle.bench_calls.specs.Calls.{TellsSize, TellsSession, TellsPlanned, TellsState, TellsKeepers, TellsOutside, TellsJobName, TellsInstrumentName};

mod bytes;
mod runs;
mod told;

use bench_calls::{
    Handle, LabCame, LabEntry, LabKeepers, LabOutside, LabPlanned, LabSession, LabSize, LabState,
    LabTurned,
};
use c_tells::Told;
use std::alloc::Global;

/// Opens a lab for a script, or for a text `bench 1`. A handle that is in use stays as it is.
#[unsafe(no_mangle)]
pub extern "C" fn lab_bench_open(
    alloc: Global,
    script: &[u8],
    bench: &mut Handle,
    told: &mut Told,
) -> u32
    ensures { Opens IsFresh script.now bench.old.slot.held bench.new.slot.held told.old told.new result }
{
    bench_calls::open(alloc, script, bench, told)
}

/// Puts the script that a text stands for into the room, and tells its length: with it a journal begins.
#[unsafe(no_mangle)]
pub extern "C" fn lab_bench_script(
    alloc: Global,
    text: &[u8],
    script: &mut [u8],
    told: &mut Told,
) -> u32
    ensures { TellsScript text.now script.old script.new told.new result }
{
    bench_calls::script(alloc, text, script, told)
}

/// Opens a lab for a script that keeps its steps until its journal is taken. A handle that is in use stays as it is.
#[unsafe(no_mangle)]
pub extern "C" fn lab_bench_open_kept(
    alloc: Global,
    script: &[u8],
    bench: &mut Handle,
    told: &mut Told,
) -> u32
    ensures { Opens IsOpenedKept script.now bench.old.slot.held bench.new.slot.held told.old told.new result }
{
    bench_calls::open_kept(alloc, script, bench, told)
}

/// Takes what the lab did since its journal was last taken, as text, if there is room for it.
#[unsafe(no_mangle)]
pub extern "C" fn lab_journal(
    alloc: Global,
    bench: &mut Handle,
    text: &mut [u8],
    written: &mut usize,
) -> u32
    ensures { InLab TellsJournal bench.old.slot.held bench.new.slot.held (text.old, written.old) (text.new, written.new) result }
{
    bench_calls::journal(alloc, bench, text, written)
}

/// Opens the lab that a journal tells of, as far as it has whole lines, and tells how many bytes these are. It keeps its steps from then on.
#[unsafe(no_mangle)]
pub extern "C" fn lab_bench_resume(
    alloc: Global,
    journal: &[u8],
    bench: &mut Handle,
    told: &mut Told,
) -> u32
    ensures { Resumes journal.now bench.old.slot.held bench.new.slot.held told.old told.new result }
{
    bench_calls::resume(alloc, journal, bench, told)
}

/// Tells how many jobs and instruments there are.
#[unsafe(no_mangle)]
pub extern "C" fn lab_bench_size(alloc: Global, bench: &mut Handle, size: &mut LabSize) -> u32
    ensures { InLab TellsSize bench.old.slot.held bench.new.slot.held size.old size.new result }
{
    bench_calls::size(alloc, bench, size)
}

/// Puts the name of a job into the room, and tells its length.
#[unsafe(no_mangle)]
pub extern "C" fn lab_job_name(
    alloc: Global,
    bench: &mut Handle,
    job: u32,
    name: &mut [u8],
    written: &mut usize,
) -> u32
    ensures { InLab (TellsJobName job) bench.old.slot.held bench.new.slot.held (name.old, written.old) (name.new, written.new) result }
{
    bench_calls::job_name(alloc, bench, job, name, written)
}

/// Puts the name of an instrument into the room, and tells its length.
#[unsafe(no_mangle)]
pub extern "C" fn lab_instrument_name(
    alloc: Global,
    bench: &mut Handle,
    instrument: u32,
    name: &mut [u8],
    written: &mut usize,
) -> u32
    ensures { InLab (TellsInstrumentName instrument) bench.old.slot.held bench.new.slot.held (name.old, written.old) (name.new, written.new) result }
{
    bench_calls::instrument_name(alloc, bench, instrument, name, written)
}

/// Tells what a job's session needs; sessions are counted from 1.
#[unsafe(no_mangle)]
pub extern "C" fn lab_session_of(
    alloc: Global,
    bench: &mut Handle,
    job: u32,
    session: u32,
    what: &mut LabSession,
) -> u32
    ensures { InLab (TellsSession job session) bench.old.slot.held bench.new.slot.held what.old what.new result }
{
    bench_calls::session(alloc, bench, job, session, what)
}

/// Tells a command of a job's session, as the script has it; commands are counted from 0.
#[unsafe(no_mangle)]
pub extern "C" fn lab_planned(
    alloc: Global,
    bench: &mut Handle,
    job: u32,
    session: u32,
    place: u32,
    command: &mut LabPlanned,
) -> u32
    ensures { InLab (TellsPlanned job session place) bench.old.slot.held bench.new.slot.held command.old command.new result }
{
    bench_calls::planned(alloc, bench, job, session, place, command)
}

/// Tells how far a job is.
#[unsafe(no_mangle)]
pub extern "C" fn lab_state(
    alloc: Global,
    bench: &mut Handle,
    job: u32,
    state: &mut LabState,
) -> u32
    ensures { InLab (TellsState job) bench.old.slot.held bench.new.slot.held state.old state.new result }
{
    bench_calls::state(alloc, bench, job, state)
}

/// Tells which jobs keep a job waiting for an instrument, and which of these hold it.
#[unsafe(no_mangle)]
pub extern "C" fn lab_keepers(
    alloc: Global,
    bench: &mut Handle,
    job: u32,
    instrument: u32,
    keepers: &mut LabKeepers,
) -> u32
    ensures { InLab (TellsKeepers job instrument) bench.old.slot.held bench.new.slot.held keepers.old keepers.new result }
{
    bench_calls::keepers(alloc, bench, job, instrument, keepers)
}

/// Tells whether a job waits outside, and how often it has been passed by.
#[unsafe(no_mangle)]
pub extern "C" fn lab_outside(
    alloc: Global,
    bench: &mut Handle,
    job: u32,
    outside: &mut LabOutside,
) -> u32
    ensures { InLab (TellsOutside job) bench.old.slot.held bench.new.slot.held outside.old outside.new result }
{
    bench_calls::outside(alloc, bench, job, outside)
}

/// Lets in the jobs of `waiting` that are due, each to its next session, and does all that can be done without a word from an owner.
#[unsafe(no_mangle)]
pub extern "C" fn lab_settle(
    alloc: Global,
    bench: &mut Handle,
    waiting: u32,
    came: &mut LabCame,
) -> u32
    ensures { InLab (InRoom (SettlesAll waiting)) bench.old.slot.held bench.new.slot.held came.old came.new result }
{
    bench_calls::settle(alloc, bench, waiting, came)
}

/// Does the next command of the session that a job holds, and tells its entry.
#[unsafe(no_mangle)]
pub extern "C" fn lab_command(
    alloc: Global,
    bench: &mut Handle,
    job: u32,
    entry: &mut LabEntry,
) -> u32
    ensures { InLab (InRoom (DoesNext job)) bench.old.slot.held bench.new.slot.held entry.old entry.new result }
{
    bench_calls::command(alloc, bench, job, entry)
}

/// Does the commands that are left of the session that a job holds, ends it, and does all that this makes due.
#[unsafe(no_mangle)]
pub extern "C" fn lab_end(
    alloc: Global,
    bench: &mut Handle,
    job: u32,
    turned: &mut LabTurned,
) -> u32
    ensures { InLab (InRoom (LetsGo job)) bench.old.slot.held bench.new.slot.held turned.old turned.new result }
{
    bench_calls::end(alloc, bench, job, turned)
}

/// Adds the sessions of a text behind the others of a job.
#[unsafe(no_mangle)]
pub extern "C" fn lab_add(
    alloc: Global,
    bench: &mut Handle,
    job: u32,
    session: &[u8],
    told: &mut Told,
) -> u32
    ensures { InLab (Comes session.now job) bench.old.slot.held bench.new.slot.held told.old told.new result }
{
    bench_calls::add(alloc, bench, job, session, told)
}

/// Puts the lines of a session of a job into the room, for the journal, and tells their length.
#[unsafe(no_mangle)]
pub extern "C" fn lab_more(
    alloc: Global,
    bench: &mut Handle,
    job: u32,
    session: u32,
    text: &mut [u8],
    written: &mut usize,
) -> u32
    ensures { InLab (TellsMore job session) bench.old.slot.held bench.new.slot.held (text.old, written.old) (text.new, written.new) result }
{
    bench_calls::more(alloc, bench, job, session, text, written)
}

/// Jobs are let in after so many sessions that pass them by, from now on.
#[unsafe(no_mangle)]
pub extern "C" fn lab_overtakes(alloc: Global, bench: &mut Handle, most: u32) -> u32
    ensures { InLab (SetsOvertakes most) bench.old.slot.held bench.new.slot.held tt tt result }
{
    bench_calls::overtakes(alloc, bench, most)
}

/// A job that waits outside doesn't any more; of another one the session is given up that it is thirsty in, if it has a patience.
#[unsafe(no_mangle)]
pub extern "C" fn lab_withdraw(alloc: Global, bench: &mut Handle, job: u32) -> u32
    ensures { InLab (InRoom (GivesUp job)) bench.old.slot.held bench.new.slot.held tt tt result }
{
    bench_calls::withdraw(alloc, bench, job)
}

/// Retires a job whose sessions are all done.
#[unsafe(no_mangle)]
pub extern "C" fn lab_retire(
    alloc: Global,
    bench: &mut Handle,
    job: u32,
    turns: u32,
    turned: &mut LabTurned,
) -> u32
    ensures { InLab (InRoom (GoesToEnd turns job)) bench.old.slot.held bench.new.slot.held turned.old turned.new result }
{
    bench_calls::retire(alloc, bench, job, turns, turned)
}

/// Closes the lab, and puts its report into the room. Without memory the handle keeps the lab, and without room the report: the next call goes on
/// from there.
#[unsafe(no_mangle)]
pub extern "C" fn lab_bench_close(
    alloc: Global,
    bench: &mut Handle,
    report: &mut [u8],
    told: &mut Told,
) -> u32
    ensures { Closes bench.old.slot.held bench.new.slot.held report.old report.new told.old told.new result }
{
    bench_calls::close(alloc, bench, report, told)
}

/// Frees the lab of the handle, or its report. The handle has nothing then.
#[unsafe(no_mangle)]
pub extern "C" fn lab_bench_free(alloc: Global, bench: &mut Handle) -> u32
    ensures { Frees bench.old.slot.held bench.new.slot.held result }
{
    bench_calls::free(alloc, bench)
}
