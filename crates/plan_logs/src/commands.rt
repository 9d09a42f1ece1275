//! A job's next command, and the entry that it adds to the log of its instrument.
ghost use Rattle.std.specs.Prelude.{◌≡◌, ◌<◌, [], length};
ghost use Rattle.lab_plan.specs.LabPlan.{command_at};
ghost use Rattle.instrument_log.specs.Dial.{turned, dial};
ghost use Rattle.instrument_log.specs.Entries.{IsWithinLimits};
ghost use Rattle.instrument_log.specs.InstrumentLog.{MayAppend, with_entry};
ghost use Rattle.legal_steps.specs.Legal.{entry_after};
ghost use Rattle.plan_logs.specs.Logs.{IsAtCommand, with_value, without_value};

use instrument_log::{Entry, InstrumentLog, turned};
use lab_plan::{InstrumentNo, JobNo, Plan, Verb};
use legal_steps::JobState;
use std::alloc::Allocator;

/// The next command of a job that is so far.
pub fn next_command<A: Allocator>(
    plan: &Plan<A>,
    job: JobNo,
    phase: JobState,
) -> (InstrumentNo, Verb)
    requires { IsAtCommand plan.now job phase }
    ensures command { result ≡ command_at plan.now job phase.session phase.position }
    ensures there { result.0 < length plan.now.instruments }
{
    plan.commands(job, phase.session)[phase.position as usize]
}

/// The instrument of a job's next command, and the command's entry. Its value is 0 until `entered` asks the log for it.
pub fn drafted<A: Allocator>(plan: &Plan<A>, job: JobNo, phase: JobState) -> (InstrumentNo, Entry)
    requires { IsAtCommand plan.now job phase }
    ensures instrument { result.0 ≡ (command_at plan.now job phase.session phase.position).0 }
    ensures entry { result.1 ≡ without_value (entry_after plan.now job phase.session phase.position []) }
{
    let (instrument, verb) = next_command(plan, job, phase);
    let place = plan.place(job, phase.session, phase.position);
    let entry = Entry {
        job,
        session: phase.session,
        place: place.place,
        length: place.length,
        verb,
        value: 0,
    };
    (instrument, entry)
}

/// The drafted entry with the value that it has behind the entries of this log of its instrument.
pub fn entered<A: Allocator>(draft: Entry, log: &InstrumentLog<A>) -> Entry
    ensures { result ≡ with_value draft (turned draft.verb (dial log.now.entries)) }
{
    Entry {
        value: turned(draft.verb, log.value()),
        ..draft
    }
}

/// The entry of the next command, behind the entries of this log of its instrument.
pub fn next_entry<A: Allocator>(
    plan: &Plan<A>,
    job: JobNo,
    phase: JobState,
    log: &InstrumentLog<A>,
) -> Entry
    requires { IsAtCommand plan.now job phase }
    ensures { result ≡ entry_after plan.now job phase.session phase.position log.now.entries }
{
    let (_, draft) = drafted(plan, job, phase);
    entered(draft, log)
}

/// Adds an entry to a log that takes it.
pub fn push<A: Allocator>(log: &mut InstrumentLog<A>, entry: &Entry)
    requires may { MayAppend log.old entry.now }
    requires within_limits { IsWithinLimits entry.now }
    requires on_dial { entry.now.value ≡ turned entry.now.verb (dial log.old.entries) }
    ensures { log.new ≡ with_entry log.old entry.now }
{
    log.add(*entry);
}
