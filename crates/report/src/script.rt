//! The upgraded script of a plan.
ghost use Rattle.std.specs.Prelude.{◌≡◌, ℕ, ◌+◌, ◌-◌, ◌<◌, ◌≤◌, length};
ghost use Rattle.std.specs.List.{All, flat_map};
ghost use Rattle.lab_plan.specs.LabPlan.{session_at, sessions, patience, job_at};
ghost use Rattle.lab_plan.specs.Texts.{job_name};
ghost use Rattle.report.specs.Taken.{Sends};
ghost use Rattle.lab_plan.specs.Upgrade.{command_text, commands_text, session_line, session_text, name_line, job_text, script_text};

use crate::header::write_header;
use crate::lines::{command_line, name_line, session_line};
use crate::outlet::{WriteFault, offer};
use crate::sink::Sink;
use lab_plan::{InstrumentNo, JobNo, Plan, Verb};
use std::alloc::Allocator;

/// A command on a line of its own.
fn write_command<W: Sink, A: Allocator>(
    plan: &Plan<A>,
    command: (InstrumentNo, Verb),
    sink: &mut W,
) -> Result<(), WriteFault>
    requires { command.0 < length plan.now.instruments }
    ensures { Sends W.taken W.failures sink.old sink.new (command_text plan.now command) result }
{
    let (instrument, verb) = command;
    let line = command_line(plan.instrument_name(instrument), verb);
    offer(sink, line.as_bytes())
}

/// Some commands in order.
fn write_commands<W: Sink, A: Allocator>(
    plan: &Plan<A>,
    commands: &[(InstrumentNo, Verb)],
    sink: &mut W,
) -> Result<(), WriteFault>
    requires { All (λ command. command.0 < length plan.now.instruments) commands.now }
    ensures { Sends W.taken W.failures sink.old sink.new (commands_text plan.now commands.now) result }
{
    for command in commands {
        write_command(plan, *command, sink)?;
    }
    Ok(())
}

/// A session's first line.
fn write_session_line<W: Sink, A: Allocator>(
    plan: &Plan<A>,
    job: JobNo,
    session: u32,
    sink: &mut W,
) -> Result<(), WriteFault>
    requires is_job { job < length plan.now.jobs }
    requires begun { 1 ≤ session }
    requires is_session { session ≤ length (sessions plan.now job) }
    ensures { Sends W.taken W.failures sink.old sink.new (session_line (patience plan.now job session)) result }
{
    let line = session_line(plan.patience(job, session));
    offer(sink, line.as_bytes())
}

/// A session: its line, its commands, and `end`.
fn write_session<W: Sink, A: Allocator>(
    plan: &Plan<A>,
    job: JobNo,
    session: u32,
    sink: &mut W,
) -> Result<(), WriteFault>
    requires is_job { job < length plan.now.jobs }
    requires begun { 1 ≤ session }
    requires is_session { session ≤ length (sessions plan.now job) }
    ensures { Sends W.taken W.failures sink.old sink.new (session_text plan.now (session_at plan.now job session)) result }
{
    write_session_line(plan, job, session, sink)?;
    write_commands(plan, plan.commands(job, session), sink)?;
    offer(sink, b"end\n")
}

/// The sessions of a job in order.
fn write_sessions<W: Sink, A: Allocator>(
    plan: &Plan<A>,
    job: JobNo,
    sink: &mut W,
) -> Result<(), WriteFault>
    requires { job < length plan.now.jobs }
    ensures { Sends W.taken W.failures sink.old sink.new (flat_map (session_text plan.now) (sessions plan.now job)) result }
{
    for session in 0..plan.sessions(job) {
        write_session(plan, job, session + 1, sink)?;
    }
    Ok(())
}

/// A job's first line.
fn write_name_line<W: Sink, A: Allocator>(
    plan: &Plan<A>,
    job: JobNo,
    sink: &mut W,
) -> Result<(), WriteFault>
    requires { job < length plan.now.jobs }
    ensures { Sends W.taken W.failures sink.old sink.new (name_line (job_name plan.now job)) result }
{
    let line = name_line(plan.job_name(job));
    offer(sink, line.as_bytes())
}

/// A job: its line, and its sessions in order.
fn write_job<W: Sink, A: Allocator>(
    plan: &Plan<A>,
    job: JobNo,
    sink: &mut W,
) -> Result<(), WriteFault>
    requires { job < length plan.now.jobs }
    ensures { Sends W.taken W.failures sink.old sink.new (job_text plan.now (job_at plan.now job)) result }
{
    write_name_line(plan, job, sink)?;
    write_sessions(plan, job, sink)
}

/// The jobs of a plan in order.
fn write_jobs<W: Sink, A: Allocator>(plan: &Plan<A>, sink: &mut W) -> Result<(), WriteFault>
    ensures { Sends W.taken W.failures sink.old sink.new (flat_map (job_text plan.now) plan.now.jobs) result }
{
    for job in 0..plan.jobs() {
        write_job(plan, JobNo(job as u8), sink)?;
    }
    Ok(())
}

/// Writes the script of version 2 that means the plan: each session keeps its patience; of a plan of version 1
/// none has one. At most 3696678 bytes, one line at a time. Takes no memory, and doesn't flush.
pub fn write_script<W: Sink, A: Allocator>(plan: &Plan<A>, sink: &mut W) -> Result<(), WriteFault>
    ensures { Sends W.taken W.failures sink.old sink.new (script_text plan.now) result }
{
    write_header(2, sink)?;
    write_jobs(plan, sink)
}
