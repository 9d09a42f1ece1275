//! Runs: a bench is opened, driven and closed.
ghost use Rattle.std.specs.Prelude.{◌≡◌, ◌≤◌, IfOk};
ghost use Rattle.turns.specs.Lists.{Each};
ghost use Rattle.edge_rule.specs.DeskView.{Owns};
ghost use Rattle.edge_rule.specs.Ending.{HasAll, IsEnd};
ghost use Rattle.rounds.specs.FromOpening.{opened};
ghost use Rattle.whole_runs.specs.Runs.{IsRunByTurns, IsRunInRounds};

use edge_rule::{Bench, CloseCause, Closed, Desk};
use lab_plan::Plan;
use rounds::laws::{drives_from_opening, never_ends_quiet};
use rounds::{Ended, rounds};
use std::alloc::{AllocError, Allocator};
use std::sync::Wait;
use std::thread::Threads;
use workers::{Gate, threads, turns_in_history};

/// A bench in the initial state, with the desks of all its jobs.
fn open<'p, A: Allocator + Copy>(
    alloc: A,
    plan: &'p Plan<A>,
) -> Result<(Bench<'p, A>, Vec<Desk<A>, A>), AllocError>
    ensures bench { IfOk result (λ r. (r.0.plan ≡ plan.now) × (r.1.items ≡ opened r.0)) }
    ensures own { IfOk result (λ r. Each (Owns r.0) r.1.items) }
    ensures all { IfOk result (λ r. HasAll r.0.plan r.1.items) }
{
    let Ok((bench, desks)) = Bench::open(alloc, plan) else {
        return Err(AllocError);
    };
    Ok((bench, desks))
}

/// The run of a bench whose desks are all there.
fn close<'p, A: Allocator>(
    alloc: A,
    bench: Bench<'p, A>,
    desks: Vec<Desk<A>, A>,
) -> Result<Closed<'p, A>, AllocError>
    requires own { Each (Owns bench) desks.items }
    requires all { HasAll bench.plan desks.items }
    ensures { IfOk result (λ run. IsEnd bench.entry.plan desks.items run) }
{
    match bench.close(alloc, desks) {
        Ok(closed) => Ok(closed),
        Err(refused) => match refused.cause {
            CloseCause::NoMemory => Err(AllocError),
            CloseCause::NotEveryDesk => unreachable!(),
        },
    }
}

/// Runs a plan on this thread, in rounds: one turn of each job a round, in ascending order of the jobs, until all jobs are
/// retired or this many rounds are done. The history follows from the plan and the limit.
///
/// Memory is taken before the first turn and after the last; if an allocation fails, nothing is left of the run.
pub fn by_rounds<'p, A: Allocator + Copy>(
    alloc: A,
    plan: &'p Plan<A>,
    limit: u32,
) -> Result<Closed<'p, A>, AllocError>
    ensures { IfOk result (IsRunInRounds plan.now limit) }
{
    // Laws that the contract rests on: the rounds begin in the initial state, and don't end because one is quiet.
    drives_from_opening();
    never_ends_quiet();
    let (bench, mut desks) = open(alloc, plan)?;
    // Why they ended, and after how many, is seen in what closing gives.
    let _ = rounds(&bench, desks.as_mut_slice(), limit);
    close(alloc, bench, desks)
}

/// Runs a plan by worker threads: worker `w` takes the turns of the jobs whose number is `w` modulo the workers, at most this
/// many turns of each, and passes the gate before each turn. It ends early once it has seen all jobs retired.
///
/// Memory is taken before the first turn and after the last; if an allocation fails, nothing is left of the run. If a
/// thread can't be made, its turns are taken on another. A worker that waits for others sleeps, or stops (`workers::threads`).
pub fn by_threads<'p, R: Threads + Wait + Sync, A: Allocator + Copy + Send + Sync, G: Gate>(
    rt: &R,
    alloc: A,
    plan: &'p Plan<A>,
    workers: u32,
    turns: u32,
    gate: &G,
) -> Result<Closed<'p, A>, AllocError>
    requires workers { 1 ≤ workers }
    ensures { IfOk result (IsRunByTurns plan.now turns) }
{
    // The law that the turns of the desks are turns in the history that closing gives.
    turns_in_history();
    let (bench, desks) = open(alloc, plan)?;
    let (desks, ended) = threads(rt, alloc, &bench, desks, workers, turns, gate);
    if ended == Ended::NoMemory {
        return Err(AllocError);
    }
    close(alloc, bench, desks)
}
