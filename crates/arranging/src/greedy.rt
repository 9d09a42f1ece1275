//! A greedy colouring by saturation (DSATUR, Brélaz 1979): which job is next is free, and the colour that it gets is not.
ghost use Rattle.std.specs.Prelude.{◌≡◌, ◌≢◌, ◌⊎◌, ◌↔◌, ℕ, ◌<◌, ◌≤◌, length, slice_index, IsTrue, IfOk, MatchOption};
ghost use Rattle.std.specs.List.{All};
ghost use Rattle.arranging.specs.Colours.{IsNear, IsGreedy, NeighboursDiffer};

use lab_plan::{JobNo, Plan};
use std::alloc::{AllocError, Allocator};

/// The colour of a job that has none yet.
const NONE: u8 = u8::MAX;

/// Whether a job that shares an instrument with this one has the colour.
fn is_near<A: Allocator>(plan: &Plan<A>, colours: &[u8], job: usize, colour: u8) -> bool
    requires one_each { length colours.now ≡ length plan.now.jobs }
    requires is_job { job < length plan.now.jobs }
    ensures { IsTrue result ↔ IsNear plan.now colours.now job colour }
{
    for other in 0..plan.jobs() {
        let shares = plan.edge_of(JobNo(job as u8), JobNo(other as u8)).is_some();
        if shares && colours[other] == colour {
            return true;
        }
    }
    false
}

/// How many of the first colours are near a job.
fn saturation<A: Allocator>(plan: &Plan<A>, colours: &[u8], job: usize, count: u8) -> u8
    requires one_each { length colours.now ≡ length plan.now.jobs }
    requires is_job { job < length plan.now.jobs }
{
    let mut near = 0;
    for used in 0..count {
        if is_near(plan, colours, job, used) {
            near += 1;
        }
    }
    near
}

/// The job without a colour whose neighbours have the most colours; of several the one with the most neighbours,
/// and of those the first. None if each job has a colour.
fn next_job<A: Allocator>(plan: &Plan<A>, colours: &[u8], count: u8) -> Option<usize>
    requires { length colours.now ≡ length plan.now.jobs }
    ensures { MatchOption result (All (λ colour. colour ≢ 255) colours.now)
        (λ job. (job < length plan.now.jobs) × (slice_index colours.now job ≡ 255)) }
{
    let mut best = None;
    let mut most = (0, 0);
    for job in 0..plan.jobs() {
        if colours[job] == NONE {
            let near = saturation(plan, colours, job, count);
            let neighbours = plan.edges_of(JobNo(job as u8)).len();
            if best.is_none() || (near, neighbours) > most {
                best = Some(job);
                most = (near, neighbours);
            }
        }
    }
    best
}

/// The least colour that isn't near a job.
fn least_free<A: Allocator>(plan: &Plan<A>, colours: &[u8], job: usize, count: u8) -> u8
    requires one_each { length colours.now ≡ length plan.now.jobs }
    requires is_job { job < length plan.now.jobs }
    requires few { count < 255 }
    requires used { All (λ colour. (colour ≡ 255) ⊎ (colour < count)) colours.now }
    ensures most { result ≤ count }
    ensures free { ¬ IsNear plan.now colours.now job result }
    ensures least { (colour : ℕ) → colour < result → IsNear plan.now colours.now job colour }
{
    for colour in 0..count {
        if !is_near(plan, colours, job, colour) {
            return colour;
        }
    }
    count
}

/// A colour for each job, the least that none of its neighbours has when its turn comes.
pub(crate) fn by_saturation<A: Allocator, B: Allocator>(
    alloc: A,
    plan: &Plan<B>,
) -> Result<Vec<u8, A>, AllocError>
    ensures one_each { IfOk result (λ colours. length colours.items ≡ length plan.now.jobs) }
    ensures differ { IfOk result (λ colours. NeighboursDiffer plan.now colours.items) }
    ensures greedy { IfOk result (λ colours. IsGreedy plan.now colours.items) }
{
    let mut colours = vec![in alloc; NONE; plan.jobs()]?;
    let mut count = 0;
    while let Some(job) = next_job(plan, &colours, count) {
        let colour = least_free(plan, &colours, job, count);
        colours[job] = colour;
        count = count.max(colour + 1);
    }
    Ok(colours)
}
