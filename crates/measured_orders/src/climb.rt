//! A hill climb over orders.
ghost use Rattle.std.specs.Prelude.{IfOk};
ghost use Rattle.measured_orders.specs.Orders.{IsClimbed, IsOrder};

use crate::measure::is_better;
use crate::moves::moved_by_chance;
use crate::trial::{Tried, in_order};
use lab_plan::{JobNo, Plan};
use rand_pcg::Pcg32;
use std::alloc::{AllocError, Allocator};

/// The most orders that are tried.
const MOST_TRIES: usize = 398;

/// How many are tried for each move that there is, where there are few.
const TRIES_OF_A_MOVE: usize = 8;

/// The most that is spent on runs: turns of jobs, and bytes that are read again, a few of which take as long as a turn.
const MOST_SPENT: u64 = 4_000_000;

/// How many bytes are read in the time of a turn.
const BYTES_IN_A_TURN: usize = 4;

/// What a run costs, in turns.
fn cost(rounds: u32, jobs: usize, bytes: usize) -> u64 {
    u64::from(rounds)
        .saturating_mul(jobs as u64)
        .saturating_add((bytes / BYTES_IN_A_TURN) as u64)
}

/// How many orders of so many jobs are tried.
fn tries(jobs: usize) -> usize {
    jobs.saturating_mul(jobs.saturating_sub(1))
        .saturating_mul(TRIES_OF_A_MOVE)
        .min(MOST_TRIES)
}

/// Tries orders near to one, and goes on from each in which the run is no worse than the best so far. Answers the best, or the start.
///
/// The moves are drawn by chance from a fixed seed, so the same script and limit give the same text.
pub(crate) fn climbed<A: Allocator + Copy>(
    alloc: A,
    plan: &Plan<A>,
    script: &[u8],
    order: Vec<JobNo, A>,
    start: Tried<A>,
    limit: u32,
) -> Result<Tried<A>, AllocError>
    requires { IsOrder plan.now order.items }
    ensures { IfOk result (IsClimbed plan.now limit script.now start) }
{
    let mut chance = Pcg32::new(0, 0);
    let mut spent = cost(start.measure.rounds, plan.jobs(), script.len()).saturating_mul(2);
    let mut best = start;
    let mut from = order;
    for _try in 0..tries(plan.jobs()) {
        if MOST_SPENT < spent {
            return Ok(best);
        }
        let next = moved_by_chance(alloc, &mut chance, &from)?;
        let made = in_order(alloc, plan, script, &next, limit)?;
        let Some(found) = made else {
            return Ok(best);
        };
        spent = spent.saturating_add(cost(found.measure.rounds, plan.jobs(), script.len()));
        if !is_better(best.measure, found.measure) {
            from = next;
        }
        if is_better(found.measure, best.measure) {
            best = found;
        }
    }
    Ok(best)
}
