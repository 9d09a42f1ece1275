//! The text of a session that came.
ghost use Rattle.std.specs.Prelude.{◌≡◌, ◌<◌, ◌≤◌, ◌++◌, length, OnOk, IfOk};
ghost use Rattle.std.specs.List.{All, flat_map};
ghost use Rattle.lab_plan.specs.LabPlan.{sessions, session_at};
ghost use Rattle.lab_plan.specs.Upgrade.{session_line};
ghost use Rattle.journal_texts.specs.More.{more_command, more_lines, more_text};

use crate::text::summed;
use lab_plan::{InstrumentNo, JobNo, Plan, Verb};
use report::Line;
use std::alloc::{AllocError, Allocator};

/// Adds the line that begins a session.
fn add_session_line<A: Allocator>(
    out: &mut Vec<u8, A>,
    patience: Option<u32>,
) -> Result<(), AllocError>
    ensures { OnOk result (out.new.items ≡ out.old.items ++ session_line patience) }
{
    let mut line = Line::<32>::new();
    line.text(b"session");
    if let Some(turns) = patience {
        line.text(b" patience ");
        line.number(turns);
    }
    line.text(b"\n");
    out.extend_from_slice(line.as_bytes())
}

/// Adds a command, on a line of its own behind `#+`.
fn add_command<A: Allocator, B: Allocator>(
    out: &mut Vec<u8, A>,
    plan: &Plan<B>,
    command: (InstrumentNo, Verb),
) -> Result<(), AllocError>
    requires { command.0 < length plan.now.instruments }
    ensures { OnOk result (out.new.items ≡ out.old.items ++ more_command plan.now command) }
{
    let (instrument, verb) = command;
    let mut line = Line::<33>::new();
    line.text(b"#+");
    line.text(plan.instrument_name(instrument));
    line.text(b" ");
    line.verb(verb);
    out.extend_from_slice(line.as_bytes())?;
    out.extend_from_slice(b"\n")
}

/// Adds some commands in order.
fn add_commands<A: Allocator, B: Allocator>(
    out: &mut Vec<u8, A>,
    plan: &Plan<B>,
    commands: &[(InstrumentNo, Verb)],
) -> Result<(), AllocError>
    requires { All (λ command. command.0 < length plan.now.instruments) commands.now }
    ensures { OnOk result (out.new.items ≡ out.old.items ++ flat_map (more_command plan.now) commands.now) }
{
    for command in commands {
        add_command(out, plan, *command)?;
    }
    Ok(())
}

/// Adds the lines of a session, the first with its job's name.
fn add_session<A: Allocator, B: Allocator>(
    out: &mut Vec<u8, A>,
    plan: &Plan<B>,
    job: JobNo,
    session: u32,
) -> Result<(), AllocError>
    requires is_job { job < length plan.now.jobs }
    requires begun { 1 ≤ session }
    requires is_session { session ≤ length (sessions plan.now job) }
    ensures { OnOk result (out.new.items ≡ out.old.items ++ more_lines plan.now job (session_at plan.now job session)) }
{
    out.extend_from_slice(b"#more ")?;
    out.extend_from_slice(plan.job_name(job))?;
    out.extend_from_slice(b"\n#+")?;
    add_session_line(out, plan.patience(job, session))?;
    add_commands(out, plan, plan.commands(job, session))?;
    out.extend_from_slice(b"#+end\n")
}

/// The text that a journal gets of a session of a job, so that the session is there on the way back.
pub fn more_text<A: Allocator, B: Allocator + Copy>(
    alloc: B,
    plan: &Plan<A>,
    job: JobNo,
    session: u32,
) -> Result<Vec<u8, B>, AllocError>
    requires is_job { job < length plan.now.jobs }
    requires begun { 1 ≤ session }
    requires is_session { session ≤ length (sessions plan.now job) }
    ensures { IfOk result (λ out. out.items ≡ more_text plan.now job session) }
{
    let mut lines = Vec::new(alloc);
    add_session(&mut lines, plan, job, session)?;
    summed(alloc, &lines)
}
