//! The tables of an opening state.
ghost use Rattle.std.specs.Prelude.{◌≡◌, ℕ, ◌<◌, ◌≤◌, ◌↔◌, IsTrue, length, replicate, false, IfOk, slice_index_or};
ghost use Rattle.lab_plan.specs.LabPlan.{edges};
ghost use Rattle.legal_steps.specs.State.{IsOfEdge, idle_phase};
ghost use Rattle.legal_steps.specs.declared.end.End.TheVariants.{Lower};
ghost use Rattle.legal_steps.specs.Opening.{AreChoices, chosen_edge, opening_of};

use crate::seat::JobSeat;
use lab_plan::{EdgeNo, Plan};
use legal_steps::{EdgeState, End, EndChoice};
use std::alloc::{AllocError, Allocator};

/// Whether there is one choice for each edge, which names bottles of that edge alone.
pub(crate) fn are_choices<A: Allocator>(plan: &Plan<A>, choices: &[EndChoice]) -> bool
    ensures { IsTrue result ↔ AreChoices plan.now choices.now }
{
    if choices.len() != plan.edges() as usize {
        return false;
    }
    for edge in 0..plan.edges() {
        if choices[edge as usize].bottles >= 1 << plan.bottles(EdgeNo(edge)) {
            return false;
        }
    }
    true
}

/// An edge as it is chosen: the fork dirty, every token at the opposite end.
fn chosen_edge<A: Allocator>(plan: &Plan<A>, edge: EdgeNo, choice: EndChoice) -> EdgeState
    requires { edge < length (edges plan.now) }
    ensures { result ≡ chosen_edge plan.now edge choice }
{
    let all_bottles = (1u32 << plan.bottles(edge)) - 1;
    EdgeState {
        fork: choice.fork,
        dirty: true,
        token: choice.fork.other(),
        bottles: choice.bottles,
        bottle_tokens: all_bottles ^ choice.bottles,
    }
}

#[tactic(auto, using(crate::proofs::OpeningTables::chosen_all))]
pub(crate) fn chosen_edges<A: Allocator>(
    alloc: A,
    plan: &Plan<A>,
    choices: &[EndChoice],
) -> Result<Vec<EdgeState, A>, AllocError>
    requires { AreChoices plan.now choices.now }
    ensures { IfOk result (λ edges. edges.items ≡ (opening_of plan.now choices.now).edges) }
{
    let mut edges = Vec::new(alloc);
    for edge in 0..plan.edges() {
        let choice = choices[edge as usize];
        edges.push(chosen_edge(plan, EdgeNo(edge), choice))?;
    }
    Ok(edges)
}

/// A seat for each job, idle and without marks.
pub(crate) fn idle_seats<A: Allocator + Copy>(
    alloc: A,
    jobs: usize,
    edges: usize,
) -> Result<Vec<JobSeat<A>, A>, AllocError>
    ensures { IfOk result (λ seats. seats.items ≡ replicate jobs
        (record { phase = idle_phase; fork_marks = replicate edges false; bottle_marks = replicate edges 0 })) }
{
    let mut seats = Vec::new(alloc);
    for _job in 0..jobs {
        seats.push(JobSeat::idle(alloc, edges)?)?;
    }
    Ok(seats)
}

/// The choices of the initial state: every fork and every bottle at the edge's lower job.
pub(crate) fn lower_choices<A: Allocator>(
    alloc: A,
    edges: usize,
) -> Result<Vec<EndChoice, A>, AllocError>
    ensures { IfOk result (λ choices. choices.items ≡ replicate edges (record { fork = Lower; bottles = 0 })) }
{
    let mut choices = Vec::new(alloc);
    for _edge in 0..edges {
        choices.push(EndChoice {
            fork: End::Lower,
            bottles: 0,
        })?;
    }
    Ok(choices)
}
