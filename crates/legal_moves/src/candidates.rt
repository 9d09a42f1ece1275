//! All moves of a plan's jobs, legal or not.
ghost use Rattle.std.specs.Prelude.{◌≡◌, ◌<◌, ◌++◌, length, IfOk, OnOk};
ghost use Rattle.lab_plan.specs.LabPlan.{edges};
ghost use Rattle.legal_moves.specs.Moves.{own_moves, fork_moves, bottle_moves, edge_moves, moves_of, all_moves};

use lab_plan::{EdgeNo, JobNo, Plan};
use legal_steps::Step;
use std::alloc::{AllocError, Allocator};

/// Adds what a job does by itself.
fn add_own<A: Allocator>(moves: &mut Vec<Step, A>, job: JobNo) -> Result<(), AllocError>
    ensures { OnOk result (moves.new.items ≡ moves.old.items ++ own_moves job) }
{
    moves.extend_from_slice(&[
        Step::Thirst(job),
        Step::Hunger(job),
        Step::Sit(job),
        Step::Leave(job),
        Step::Drink(job),
        Step::Reach(job),
        Step::Act(job),
        Step::Quit(job),
        Step::Retire(job),
        Step::Withdraw(job),
    ])
}

/// Adds what a job does with the fork of an edge.
fn add_fork<A: Allocator>(
    moves: &mut Vec<Step, A>,
    job: JobNo,
    edge: EdgeNo,
) -> Result<(), AllocError>
    ensures { OnOk result (moves.new.items ≡ moves.old.items ++ fork_moves job edge) }
{
    moves.extend_from_slice(&[
        Step::AskFork(job, edge),
        Step::GiveFork(job, edge),
        Step::Soil(job, edge),
    ])
}

/// Adds what a job does with one bottle of an edge.
#[tactic(auto, using(crate::proofs::Lists::shifted))]
fn add_bottle<A: Allocator>(
    moves: &mut Vec<Step, A>,
    job: JobNo,
    edge: EdgeNo,
    bottle: u32,
) -> Result<(), AllocError>
    requires { bottle < 32 }
    ensures { OnOk result (moves.new.items ≡ moves.old.items ++ bottle_moves job edge bottle) }
{
    let one = 1u32 << bottle;
    moves.extend_from_slice(&[
        Step::AskBottles(job, edge, one),
        Step::GiveBottles(job, edge, one),
    ])
}

/// Adds what a job does at one of its edges.
fn add_edge<A: Allocator, B: Allocator>(
    moves: &mut Vec<Step, A>,
    plan: &Plan<B>,
    job: JobNo,
    edge: EdgeNo,
) -> Result<(), AllocError>
    requires { edge < length (edges plan.now) }
    ensures { OnOk result (moves.new.items ≡ moves.old.items ++ edge_moves plan.now job edge) }
{
    add_fork(moves, job, edge)?;
    for bottle in 0..plan.bottles(edge) {
        add_bottle(moves, job, edge, bottle)?;
    }
    Ok(())
}

/// Adds the moves of a job.
fn add_job<A: Allocator, B: Allocator>(
    moves: &mut Vec<Step, A>,
    plan: &Plan<B>,
    job: JobNo,
) -> Result<(), AllocError>
    requires { job < length plan.now.jobs }
    ensures { OnOk result (moves.new.items ≡ moves.old.items ++ moves_of plan.now job) }
{
    add_own(moves, job)?;
    for edge in plan.edges_of(job) {
        add_edge(moves, plan, job, *edge)?;
    }
    Ok(())
}

/// The moves of all jobs.
pub(crate) fn all_moves<A: Allocator, B: Allocator>(
    alloc: A,
    plan: &Plan<B>,
) -> Result<Vec<Step, A>, AllocError>
    ensures { IfOk result (λ moves. moves.items ≡ all_moves plan.now) }
{
    let mut moves = Vec::new(alloc);
    for job in 0..plan.jobs() {
        add_job(&mut moves, plan, JobNo(job as u8))?;
    }
    Ok(moves)
}
