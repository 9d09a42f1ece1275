//! Whether jobs of two plans are the same, with their instruments by name.
ghost use Rattle.std.specs.Prelude.{◌≡◌, ◌<◌, ◌≤◌, ◌↔◌, IsTrue, length, map};
ghost use Rattle.std.specs.List.{All};
ghost use Rattle.lab_plan.specs.LabPlan.{sessions, session_at, job_at};
ghost use Rattle.arranging.specs.Reordered.{named_command, named_session, named_job, HasJobsOf};

use lab_plan::{InstrumentNo, JobNo, Plan, Verb, is_same_name};
use std::alloc::Allocator;

/// Whether two commands are the same.
fn is_same_command<A: Allocator, B: Allocator>(
    plan: &Plan<A>,
    mine: (InstrumentNo, Verb),
    other: &Plan<B>,
    yours: (InstrumentNo, Verb),
) -> bool
    requires mine { mine.0 < length plan.now.instruments }
    requires yours { yours.0 < length other.now.instruments }
    ensures { IsTrue result ↔ (named_command plan.now mine ≡ named_command other.now yours) }
{
    mine.1 == yours.1 && is_same_name(plan.instrument_name(mine.0), other.instrument_name(yours.0))
}

/// Whether all commands are the same, one after another.
fn are_same_commands<A: Allocator, B: Allocator>(
    plan: &Plan<A>,
    mine: &[(InstrumentNo, Verb)],
    other: &Plan<B>,
    yours: &[(InstrumentNo, Verb)],
) -> bool
    requires mine { All (λ command. command.0 < length plan.now.instruments) mine.now }
    requires yours { All (λ command. command.0 < length other.now.instruments) yours.now }
    ensures { IsTrue result ↔ (map (named_command plan.now) mine.now ≡ map (named_command other.now) yours.now) }
{
    if mine.len() != yours.len() {
        return false;
    }
    for place in 0..mine.len() {
        if !is_same_command(plan, mine[place], other, yours[place]) {
            return false;
        }
    }
    true
}

/// Whether a session of two jobs is the same.
fn is_same_session<A: Allocator, B: Allocator>(
    plan: &Plan<A>,
    mine: JobNo,
    other: &Plan<B>,
    yours: JobNo,
    session: u32,
) -> bool
    requires my_job { mine < length plan.now.jobs }
    requires your_job { yours < length other.now.jobs }
    requires begun { 1 ≤ session }
    requires my_session { session ≤ length (sessions plan.now mine) }
    requires your_session { session ≤ length (sessions other.now yours) }
    ensures { IsTrue result ↔ (named_session plan.now (session_at plan.now mine session) ≡ named_session other.now (session_at other.now yours session)) }
{
    plan.patience(mine, session) == other.patience(yours, session)
        && are_same_commands(
            plan,
            plan.commands(mine, session),
            other,
            other.commands(yours, session),
        )
}

/// Whether two jobs are the same: their names, and session by session.
fn is_same_job<A: Allocator, B: Allocator>(
    plan: &Plan<A>,
    mine: JobNo,
    other: &Plan<B>,
    yours: JobNo,
) -> bool
    requires my_job { mine < length plan.now.jobs }
    requires your_job { yours < length other.now.jobs }
    ensures { IsTrue result ↔ (named_job plan.now (job_at plan.now mine) ≡ named_job other.now (job_at other.now yours)) }
{
    if plan.sessions(mine) != other.sessions(yours) {
        return false;
    }
    if !is_same_name(plan.job_name(mine), other.job_name(yours)) {
        return false;
    }
    for before in 0..plan.sessions(mine) {
        if !is_same_session(plan, mine, other, yours, before + 1) {
            return false;
        }
    }
    true
}

/// Whether a plan has the jobs of another in this order.
pub fn has_jobs_of<A: Allocator, B: Allocator>(
    plan: &Plan<A>,
    order: &[JobNo],
    other: &Plan<B>,
) -> bool
    requires { All (λ job. job < length plan.now.jobs) order.now }
    ensures { IsTrue result ↔ HasJobsOf plan.now order.now other.now }
{
    if order.len() != other.jobs() {
        return false;
    }
    for place in 0..order.len() {
        if !is_same_job(other, JobNo(place as u8), plan, order[place]) {
            return false;
        }
    }
    true
}
