//! A longest chain of precedence in the initial state.
ghost use Rattle.std.specs.Prelude.{◌≡◌, ◌<◌, ◌≤◌, ◌↔◌, ◌+◌, ◌∷◌, ℕ, [], length, IsTrue, IfOk, IfSome};
ghost use Rattle.legal_steps.specs.Opening.{the_opening};
ghost use Rattle.legal_steps.specs.Precedence.{Precedes};
ghost use Rattle.chains.specs.Chains.{IsLongestChain, IsLongestFrom, AreLongest, IsBestBelow, chain_at, is_longer};

use lab_plan::{JobNo, Plan};
use std::alloc::{AllocError, Allocator, Global};
use std::marker::Model;

/// Jobs, one after another.
#[derive(Drop)]
pub struct Chain<A: Allocator = Global> {
    jobs: Vec<JobNo, A>,
}

impl<A: Allocator> Model for Chain<A> {
    ghost use Rattle.std.specs.Prelude.{List, ℕ};

    ghost Value = { List ℕ };

    ghost view = { λ c. c.jobs.items };
}

impl<A: Allocator> Chain<A> {
    /// The jobs, the first in front.
    pub fn jobs(&self) -> &[JobNo]
        ensures { result.now ≡ self.now }
    {
        &self.jobs
    }

    fn len(&self) -> usize
        ensures { result ≡ length self.now }
    {
        self.jobs.len()
    }

    /// A job, and behind it the jobs of another chain.
    fn of(alloc: A, first: JobNo, later: &[JobNo]) -> Result<Chain<A>, AllocError>
        ensures { IfOk result (λ chain. chain ≡ first ∷ later.now) }
    {
        let mut jobs = Vec::new(alloc);
        jobs.push(first)?;
        jobs.extend_from_slice(later)?;
        Ok(Chain { jobs })
    }
}

/// Whether a job precedes one with a lower number in the initial state: the lower has the fork, which is dirty.
fn precedes<A: Allocator>(plan: &Plan<A>, job: JobNo, lower: JobNo) -> bool
    requires inside { job < length plan.now.jobs }
    requires lower { lower < job }
    ensures { IsTrue result ↔ Precedes plan.now (the_opening plan.now) job lower }
{
    plan.edge_of(lower, job).is_some()
}

/// Whether the chain at a place is longer than the best so far.
fn is_longer<A: Allocator>(chains: &[Chain<A>], place: usize, best: Option<usize>) -> bool
    requires place { place < length chains.now }
    requires best { IfSome best (λ k. k < length chains.now) }
    ensures { result ≡ is_longer chains.now place best }
{
    match best {
        Some(other) => chains[other].len() < chains[place].len(),
        None => true,
    }
}

/// The best so far, or the next lower job.
#[tactic(auto, using(crate::proofs::Longest::no_more, crate::proofs::Longest::stays, crate::proofs::Longest::takes))]
fn better<A: Allocator>(
    plan: &Plan<A>,
    chains: &[Chain<A>],
    job: JobNo,
    place: usize,
    best: Option<usize>,
) -> Option<usize>
    requires inside { job < length plan.now.jobs }
    requires below { length chains.now ≡ job }
    requires place { place < length chains.now }
    requires best { IsBestBelow plan.now chains.now job place best }
    ensures { IsBestBelow plan.now chains.now job (place + 1) result }
{
    if !precedes(plan, job, JobNo(place as u8)) {
        return best;
    }
    if is_longer(chains, place, best) {
        Some(place)
    } else {
        best
    }
}

/// Of the lower jobs that this one precedes, one with a longest chain.
fn best_below<A: Allocator>(plan: &Plan<A>, chains: &[Chain<A>], job: JobNo) -> Option<usize>
    requires inside { job < length plan.now.jobs }
    requires below { length chains.now ≡ job }
    ensures { IsBestBelow plan.now chains.now job job result }
{
    let mut best = None;
    for place in 0..chains.len() {
        best = better(plan, chains, job, place, best);
    }
    best
}

/// A longest of the chains that begin with a job, by those of the lower jobs.
#[tactic(auto, using(crate::proofs::Longest::from_best))]
fn longest_from<A: Allocator + Copy>(
    alloc: A,
    plan: &Plan<A>,
    chains: &[Chain<A>],
    job: JobNo,
) -> Result<Chain<A>, AllocError>
    requires inside { job < length plan.now.jobs }
    requires below { length chains.now ≡ job }
    requires longest { AreLongest plan.now chains.now }
    ensures { IfOk result (λ chain. IsLongestFrom plan.now job chain) }
{
    match best_below(plan, chains, job) {
        Some(best) => Chain::of(alloc, job, chains[best].jobs()),
        None => Chain::of(alloc, job, &[]),
    }
}

/// For each job a longest of the chains that begin with it.
fn all_chains<A: Allocator + Copy>(alloc: A, plan: &Plan<A>) -> Result<Vec<Chain<A>, A>, AllocError>
    ensures longest { IfOk result (λ chains. AreLongest plan.now chains.items) }
    ensures all { IfOk result (λ chains. length chains.items ≡ length plan.now.jobs) }
{
    let mut chains = Vec::new(alloc);
    for job in 0..plan.jobs() {
        let chain = longest_from(alloc, plan, &chains, JobNo(job as u8))?;
        chains.push(chain)?;
    }
    Ok(chains)
}

/// The place of the longer of two chains.
fn longer<A: Allocator>(chains: &[Chain<A>], best: usize, place: usize) -> usize
    requires best { best < length chains.now }
    requires place { place < length chains.now }
    ensures inside { result < length chains.now }
    ensures best { length (chain_at chains.now best) ≤ length (chain_at chains.now result) }
    ensures place { length (chain_at chains.now place) ≤ length (chain_at chains.now result) }
{
    if chains[best].len() < chains[place].len() {
        place
    } else {
        best
    }
}

/// The place of a longest of some chains.
fn longest_place<A: Allocator>(chains: &[Chain<A>]) -> usize
    requires { 0 < length chains.now }
    ensures place { result < length chains.now }
    ensures longest { (k : ℕ) → k < length chains.now → length (chain_at chains.now k) ≤ length (chain_at chains.now result) }
{
    let mut best = 0;
    for place in 0..chains.len() {
        best = longer(chains, best, place);
    }
    best
}

/// A longest chain of jobs, each of which precedes the next in the initial state. Time grows with the square of the jobs.
pub fn longest_chain<A: Allocator + Copy>(alloc: A, plan: &Plan<A>) -> Result<Chain<A>, AllocError>
    ensures { IfOk result (λ chain. IsLongestChain plan.now chain) }
{
    if plan.jobs() == 0 {
        return Ok(Chain {
            jobs: Vec::new(alloc),
        });
    }
    let mut chains = all_chains(alloc, plan)?;
    let best = longest_place(&chains);
    Ok(chains.swap_remove(best))
}
