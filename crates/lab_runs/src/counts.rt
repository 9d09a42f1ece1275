//! The counts of a plan.
ghost use Rattle.std.specs.Prelude.{◌≡◌, ◌<◌, ◌≤◌, length, IfOk, string_bytes};
ghost use Rattle.lab_plan.specs.IsPlan.{IsPlan};
ghost use Rattle.lab_plan.specs.LabPlan.{sessions};
ghost use Rattle.lab_runs.specs.Counts.{session_count, commands_of, command_count, counts_of, counts_text, counts_line};

use lab_plan::{JobNo, Plan};
use std::alloc::{AllocError, Allocator};

/// How much a plan has of each; sessions and commands over all jobs.
#[derive(Clone, Copy)]
pub(crate) struct PlanCounts {
    jobs: usize,
    instruments: usize,
    edges: u16,
    sessions: u32,
    commands: usize,
}

/// How many sessions the jobs have together.
fn session_count<A: Allocator>(plan: &Plan<A>) -> u32
    ensures { result ≡ session_count plan.now }
{
    let mut total = 0;
    for job in 0..plan.jobs() {
        total += plan.sessions(JobNo(job as u8));
    }
    total
}

/// How many commands the sessions of a job have together.
fn commands_of<A: Allocator>(plan: &Plan<A>, job: JobNo) -> usize
    requires is_job { job < length plan.now.jobs }
    requires is_plan { IsPlan plan.now }
    ensures { result ≡ commands_of (sessions plan.now job) }
{
    let mut total = 0;
    for before in 0..plan.sessions(job) {
        total += plan.commands(job, before + 1).len();
    }
    total
}

/// How many commands the jobs have together.
fn command_count<A: Allocator>(plan: &Plan<A>) -> usize
    ensures { result ≡ command_count plan.now }
{
    let mut total = 0;
    for job in 0..plan.jobs() {
        total += commands_of(plan, JobNo(job as u8));
    }
    total
}

/// How much a plan has of each.
fn counts_of<A: Allocator>(plan: &Plan<A>) -> PlanCounts
    ensures { result ≡ counts_of plan.now }
{
    PlanCounts {
        jobs: plan.jobs(),
        instruments: plan.instruments(),
        edges: plan.edges(),
        sessions: session_count(plan),
        commands: command_count(plan),
    }
}

/// Some counts in one line, with LF at its end.
fn counts_text<A: Allocator>(alloc: A, counts: PlanCounts) -> Result<String<A>, AllocError>
    ensures { IfOk result (λ line. string_bytes line ≡ counts_text counts) }
{
    let PlanCounts {
        jobs,
        instruments,
        edges,
        sessions,
        commands,
    } = counts;
    format!(in alloc;
        "ok jobs {jobs} instruments {instruments} edges {edges} sessions {sessions} commands {commands}\n"
    )
}

/// The counts of a plan in one line.
pub(crate) fn counts_line<A: Allocator>(alloc: A, plan: &Plan<A>) -> Result<String<A>, AllocError>
    ensures { IfOk result (λ line. string_bytes line ≡ counts_line plan.now) }
{
    counts_text(alloc, counts_of(plan))
}
