//! Waits in words.
ghost use Rattle.std.specs.Prelude.{◌≡◌, ◌≢◌, ◌+◌, ◌<◌, ◌++◌, length, decimal, OnOk};
ghost use Rattle.std.specs.List.{All, flat_map};
ghost use Rattle.lab_plan.specs.Texts.{job_name};
ghost use Rattle.waiting.specs.Text.{rounds_line, ending, done_text, outcome_text, session_line, session_lines, job_line, holder_text};
ghost use Rattle.waiting.specs.Text.{longest_line, chain_name, chain_line, jobs, sessions_text, job_text, waits_text, longest_below};

use crate::longest::longest_below;
use crate::run::RoundsRun;
use crate::session::Session;
use crate::waits::{Longest, longest_of, total_wait};
use itoa::Buffer;
use lab_plan::{JobNo, Plan};
use std::alloc::{AllocError, Allocator};

/// Adds a word and a number.
fn add_number<A: Allocator>(
    out: &mut Vec<u8, A>,
    word: &[u8],
    number: u32,
) -> Result<(), AllocError>
    ensures { OnOk result (out.new.items ≡ out.old.items ++ word.now ++ decimal number) }
{
    out.extend_from_slice(word)?;
    out.extend_from_slice(Buffer::new().format(number).as_bytes())
}

/// Adds a word and a count.
fn add_count<A: Allocator>(out: &mut Vec<u8, A>, word: &[u8], count: u128) -> Result<(), AllocError>
    ensures { OnOk result (out.new.items ≡ out.old.items ++ word.now ++ decimal count) }
{
    out.extend_from_slice(word)?;
    out.extend_from_slice(Buffer::new().format(count).as_bytes())
}

fn ending(retired: bool) -> &'static [u8]
    ensures { result.now ≡ ending retired }
{
    if retired {
        b" finished\n"
    } else {
        b" unfinished\n"
    }
}

/// Adds the first line.
#[tactic(auto, unfolding(crate::specs::Text::rounds_line))]
pub fn add_rounds<A: Allocator, B: Allocator>(
    out: &mut Vec<u8, A>,
    run: &RoundsRun<B>,
) -> Result<(), AllocError>
    ensures { OnOk result (out.new.items ≡ out.old.items ++ rounds_line run.now) }
{
    add_number(out, b"rounds ", run.rounds())?;
    out.extend_from_slice(ending(run.retired()))
}

/// Adds the round in which a session was done, if it was.
fn add_done<A: Allocator>(out: &mut Vec<u8, A>, done: Option<u32>) -> Result<(), AllocError>
    ensures { OnOk result (out.new.items ≡ out.old.items ++ done_text done) }
{
    match done {
        Some(done) => add_number(out, b" done ", done),
        None => Ok(()),
    }
}

/// Adds what became of a session.
pub fn add_outcome<A: Allocator>(out: &mut Vec<u8, A>, session: &Session) -> Result<(), AllocError>
    ensures { OnOk result (out.new.items ≡ out.old.items ++ outcome_text session.now.thirsty session.now.drinks session.now.done session.now.given_up) }
{
    match (session.drinks, session.given_up) {
        (Some(drinks), _) => {
            add_number(out, b" drinks ", drinks)?;
            add_done(out, session.done)?;
            add_number(out, b" waited ", drinks.saturating_sub(session.thirsty))
        }
        (None, Some(given_up)) => add_number(out, b" given up ", given_up),
        (None, None) => out.extend_from_slice(b" waits"),
    }
}

/// The line of a session.
#[tactic(auto, unfolding(crate::specs::Text::session_line))]
fn add_session<A: Allocator>(
    out: &mut Vec<u8, A>,
    name: &[u8],
    number: usize,
    session: &Session,
) -> Result<(), AllocError>
    ensures { OnOk result (out.new.items ≡ out.old.items ++ session_line name.now number session.now) }
{
    out.extend_from_slice(b"session ")?;
    out.extend_from_slice(name)?;
    add_count(out, b" ", number as u128)?;
    add_number(out, b" thirsty ", session.thirsty)?;
    add_outcome(out, session)?;
    out.extend_from_slice(b"\n")
}

/// The lines of a job's sessions, of which the first has this number.
fn add_sessions<A: Allocator>(
    out: &mut Vec<u8, A>,
    name: &[u8],
    number: usize,
    sessions: &[Session],
) -> Result<(), AllocError>
    requires { number + length sessions.now < 18446744073709551616 }
    ensures { OnOk result (out.new.items ≡ out.old.items ++ session_lines name.now number sessions.now) }
{
    match sessions {
        [] => Ok(()),
        [session, later @ ..] => {
            add_session(out, name, number, session)?;
            add_sessions(out, name, number + 1, later)
        }
    }
}

/// The line of a job.
#[tactic(auto, unfolding(crate::specs::Text::job_line))]
fn add_job<A: Allocator>(
    out: &mut Vec<u8, A>,
    name: &[u8],
    last: u32,
    sessions: &[Session],
) -> Result<(), AllocError>
    ensures { OnOk result (out.new.items ≡ out.old.items ++ job_line name.now last sessions.now) }
{
    out.extend_from_slice(b"job ")?;
    out.extend_from_slice(name)?;
    add_count(out, b" waited ", total_wait(last, sessions))?;
    add_number(out, b" longest ", longest_of(last, sessions))?;
    out.extend_from_slice(b"\n")
}

/// The lines of the sessions of the job with this number.
#[tactic(auto, unfolding(crate::specs::Text::sessions_text))]
fn add_sessions_of<A: Allocator, B: Allocator, C: Allocator>(
    out: &mut Vec<u8, A>,
    plan: &Plan<B>,
    run: &RoundsRun<C>,
    job: JobNo,
) -> Result<(), AllocError>
    requires all { length run.now.jobs ≡ length plan.now.jobs }
    requires inside { job < length plan.now.jobs }
    ensures { OnOk result (out.new.items ≡ out.old.items ++ sessions_text plan.now run.now job) }
{
    add_sessions(out, plan.job_name(job), 1, run.sessions(job))
}

/// The lines of all sessions.
fn add_all_sessions<A: Allocator, B: Allocator, C: Allocator>(
    out: &mut Vec<u8, A>,
    plan: &Plan<B>,
    run: &RoundsRun<C>,
) -> Result<(), AllocError>
    requires { length run.now.jobs ≡ length plan.now.jobs }
    ensures { OnOk result (out.new.items ≡ out.old.items ++ flat_map (sessions_text plan.now run.now) (jobs plan.now)) }
{
    for job in 0..plan.jobs() {
        add_sessions_of(out, plan, run, JobNo(job as u8))?;
    }
    Ok(())
}

/// The line of the job with this number.
#[tactic(auto, unfolding(crate::specs::Text::job_text))]
fn add_job_of<A: Allocator, B: Allocator, C: Allocator>(
    out: &mut Vec<u8, A>,
    plan: &Plan<B>,
    run: &RoundsRun<C>,
    job: JobNo,
) -> Result<(), AllocError>
    requires all { length run.now.jobs ≡ length plan.now.jobs }
    requires inside { job < length plan.now.jobs }
    ensures { OnOk result (out.new.items ≡ out.old.items ++ job_text plan.now run.now job) }
{
    add_job(out, plan.job_name(job), run.rounds(), run.sessions(job))
}

/// The lines of the jobs.
fn add_jobs<A: Allocator, B: Allocator, C: Allocator>(
    out: &mut Vec<u8, A>,
    plan: &Plan<B>,
    run: &RoundsRun<C>,
) -> Result<(), AllocError>
    requires { length run.now.jobs ≡ length plan.now.jobs }
    ensures { OnOk result (out.new.items ≡ out.old.items ++ flat_map (job_text plan.now run.now) (jobs plan.now)) }
{
    for job in 0..plan.jobs() {
        add_job_of(out, plan, run, JobNo(job as u8))?;
    }
    Ok(())
}

/// Adds whose the longest wait is, if somebody waited, and ends the line.
#[tactic(auto, unfolding(crate::specs::Text::holder_text))]
fn add_holder<A: Allocator, B: Allocator>(
    out: &mut Vec<u8, A>,
    plan: &Plan<B>,
    longest: Longest,
) -> Result<(), AllocError>
    requires { longest.wait ≢ 0 → longest.job < length plan.now.jobs }
    ensures { OnOk result (out.new.items ≡ out.old.items ++ holder_text plan.now longest) }
{
    if longest.wait == 0 {
        return out.extend_from_slice(b"\n");
    }
    out.extend_from_slice(b" ")?;
    out.extend_from_slice(plan.job_name(longest.job))?;
    add_count(out, b" ", longest.session as u128)?;
    out.extend_from_slice(b"\n")
}

/// The line of the longest wait.
fn add_longest<A: Allocator, B: Allocator>(
    out: &mut Vec<u8, A>,
    plan: &Plan<B>,
    longest: Longest,
) -> Result<(), AllocError>
    requires { longest.wait ≢ 0 → longest.job < length plan.now.jobs }
    ensures { OnOk result (out.new.items ≡ out.old.items ++ longest_line plan.now longest) }
{
    add_number(out, b"longest wait ", longest.wait)?;
    add_holder(out, plan, longest)
}

/// The name of a job, behind a space.
fn add_name<A: Allocator, B: Allocator>(
    out: &mut Vec<u8, A>,
    plan: &Plan<B>,
    job: JobNo,
) -> Result<(), AllocError>
    requires { job < length plan.now.jobs }
    ensures { OnOk result (out.new.items ≡ out.old.items ++ chain_name plan.now job) }
{
    out.extend_from_slice(b" ")?;
    out.extend_from_slice(plan.job_name(job))
}

/// The names of some jobs.
fn add_names<A: Allocator, B: Allocator>(
    out: &mut Vec<u8, A>,
    plan: &Plan<B>,
    chain: &[JobNo],
) -> Result<(), AllocError>
    requires { All (λ job. job < length plan.now.jobs) chain.now }
    ensures { OnOk result (out.new.items ≡ out.old.items ++ flat_map (chain_name plan.now) chain.now) }
{
    for job in chain {
        add_name(out, plan, *job)?;
    }
    Ok(())
}

/// The line of the chain.
#[tactic(auto, unfolding(crate::specs::Text::chain_line))]
fn add_chain<A: Allocator, B: Allocator>(
    out: &mut Vec<u8, A>,
    plan: &Plan<B>,
    chain: &[JobNo],
) -> Result<(), AllocError>
    requires { All (λ job. job < length plan.now.jobs) chain.now }
    ensures { OnOk result (out.new.items ≡ out.old.items ++ chain_line plan.now chain.now) }
{
    add_count(out, b"chain ", chain.len() as u128)?;
    add_names(out, plan, chain)?;
    out.extend_from_slice(b"\n")
}

/// Adds what is told of the waits of a run, and of a chain of jobs. Unless an allocation fails, the text is added whole.
#[tactic(auto, unfolding(crate::specs::Text::waits_text))]
pub fn add_waits<A: Allocator, B: Allocator, C: Allocator>(
    out: &mut Vec<u8, A>,
    plan: &Plan<B>,
    run: &RoundsRun<C>,
    chain: &[JobNo],
) -> Result<(), AllocError>
    requires all { length run.now.jobs ≡ length plan.now.jobs }
    requires chain { All (λ job. job < length plan.now.jobs) chain.now }
    ensures { OnOk result (out.new.items ≡ out.old.items ++ waits_text plan.now run.now chain.now) }
{
    add_rounds(out, run)?;
    add_all_sessions(out, plan, run)?;
    add_jobs(out, plan, run)?;
    add_longest(out, plan, longest_below(run, plan.jobs()))?;
    add_chain(out, plan, chain)
}
