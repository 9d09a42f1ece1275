//! A session's tooltip and its shapes.
ghost use Rattle.std.specs.Prelude.{◌≡◌, ◌+◌, ◌≤◌, ◌<◌, ◌++◌, length, OnOk};
ghost use Rattle.std.specs.List.{All, flat_map};
ghost use Rattle.lab_plan.specs.LabPlan.{sessions, instrument_numbers};
ghost use Rattle.block_lines.specs.Text.{IsOfPlan};
ghost use Rattle.blocking.specs.Keepers.{IsKeptOf};
ghost use Rattle.round_picture.specs.Sessions.{instrument_text, instruments_text, title_text, session_text, sessions_text};

use crate::keepers::add_keepers;
use crate::scale::add_place;
use crate::shapes::add_shapes;
use block_lines::Block;
use blocking::KeptRun;
use lab_plan::{InstrumentNo, JobNo, Plan};
use std::alloc::{AllocError, Allocator};
use waiting::{Session, add_outcome};

/// Adds the name of an instrument, if the session has commands on it.
fn add_instrument<A: Allocator, B: Allocator>(
    out: &mut Vec<u8, A>,
    plan: &Plan<B>,
    job: JobNo,
    session: u32,
    instrument: InstrumentNo,
) -> Result<(), AllocError>
    requires is_job { job < length plan.now.jobs }
    requires begun { 1 ≤ session }
    requires is_session { session ≤ length (sessions plan.now job) }
    requires is_instrument { instrument < length plan.now.instruments }
    ensures { OnOk result (out.new.items ≡ out.old.items ++ instrument_text plan.now job session instrument) }
{
    if plan.part(job, session, instrument) == 0 {
        return Ok(());
    }
    out.extend_from_slice(b" ")?;
    out.extend_from_slice(plan.instrument_name(instrument))
}

/// Adds the names of a session's instruments.
fn add_all_instruments<A: Allocator, B: Allocator>(
    out: &mut Vec<u8, A>,
    plan: &Plan<B>,
    job: JobNo,
    session: u32,
) -> Result<(), AllocError>
    requires is_job { job < length plan.now.jobs }
    requires begun { 1 ≤ session }
    requires is_session { session ≤ length (sessions plan.now job) }
    ensures { OnOk result (out.new.items ≡ out.old.items ++ flat_map (instrument_text plan.now job session) (instrument_numbers plan.now)) }
{
    for number in 0..plan.instruments() {
        add_instrument(out, plan, job, session, InstrumentNo(number as u8))?;
    }
    Ok(())
}

/// Adds the names of the instruments of a session that the plan has.
#[tactic(auto, unfolding(crate::specs::Sessions::instruments_text))]
fn add_instruments<A: Allocator, B: Allocator>(
    out: &mut Vec<u8, A>,
    plan: &Plan<B>,
    job: JobNo,
    number: usize,
) -> Result<(), AllocError>
    requires is_job { job < length plan.now.jobs }
    requires begun { 1 ≤ number }
    ensures { OnOk result (out.new.items ≡ out.old.items ++ instruments_text plan.now job number) }
{
    if number <= plan.sessions(job) as usize {
        add_all_instruments(out, plan, job, number as u32)
    } else {
        Ok(())
    }
}

/// Adds a session's tooltip.
#[tactic(auto, unfolding(crate::specs::Sessions::title_text))]
fn add_title<A: Allocator, B: Allocator>(
    out: &mut Vec<u8, A>,
    plan: &Plan<B>,
    job: JobNo,
    number: usize,
    session: &Session,
    keepers: &[Block],
) -> Result<(), AllocError>
    requires is_job { job < length plan.now.jobs }
    requires begun { 1 ≤ number }
    requires keepers { All (IsOfPlan plan.now) keepers.now }
    ensures { OnOk result (out.new.items ≡ out.old.items ++ title_text plan.now keepers.now job number session.now) }
{
    out.extend_from_slice(b"<g><title>")?;
    out.extend_from_slice(plan.job_name(job))?;
    add_place(out, b" session ", number as u64)?;
    out.extend_from_slice(b":")?;
    add_instruments(out, plan, job, number)?;
    add_place(out, b"; thirsty ", u64::from(session.thirsty))?;
    add_outcome(out, session)?;
    add_keepers(out, plan, keepers)?;
    out.extend_from_slice(b"</title>")
}

/// Adds a session.
#[tactic(auto, unfolding(crate::specs::Sessions::session_text))]
fn add_session<A: Allocator, B: Allocator, C: Allocator>(
    out: &mut Vec<u8, A>,
    plan: &Plan<B>,
    run: &KeptRun<C>,
    job: JobNo,
    number: usize,
    session: &Session,
) -> Result<(), AllocError>
    requires known { IsKeptOf plan.now run.now }
    requires is_job { job < length plan.now.jobs }
    requires begun { 1 ≤ number }
    ensures { OnOk result (out.new.items ≡ out.old.items ++ session_text plan.now run.now job number session.now) }
{
    add_title(out, plan, job, number, session, run.keepers(job, number))?;
    add_shapes(out, run.run().rounds(), number, session)?;
    out.extend_from_slice(b"</g>\n")
}

/// Adds a job's sessions, of which the first has this number.
pub(crate) fn add_sessions<A: Allocator, B: Allocator, C: Allocator>(
    out: &mut Vec<u8, A>,
    plan: &Plan<B>,
    run: &KeptRun<C>,
    job: JobNo,
    number: usize,
    sessions: &[Session],
) -> Result<(), AllocError>
    requires known { IsKeptOf plan.now run.now }
    requires is_job { job < length plan.now.jobs }
    requires begun { 1 ≤ number }
    requires few { number + length sessions.now < 18446744073709551616 }
    ensures { OnOk result (out.new.items ≡ out.old.items ++ sessions_text plan.now run.now job number sessions.now) }
{
    match sessions {
        [] => Ok(()),
        [session, later @ ..] => {
            add_session(out, plan, run, job, number, session)?;
            add_sessions(out, plan, run, job, number + 1, later)
        }
    }
}
