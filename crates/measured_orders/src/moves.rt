//! Moves of jobs to other places in an order.
ghost use Rattle.std.specs.Prelude.{◌<◌, IfOk, OnOk};
ghost use Rattle.std.specs.List.Sorted.{IsPermutation};

use lab_plan::JobNo;
use rand_core::Rng;
use rand_pcg::Pcg32;
use std::alloc::{AllocError, Allocator};

/// A number below this one, by chance.
fn below(chance: &mut Pcg32, end: usize) -> usize
    requires { 0 < end }
    ensures { result < end }
{
    chance.next_u32() as usize % end
}

/// Moves a job to another place, both by chance.
fn move_one<A: Allocator>(chance: &mut Pcg32, order: &mut Vec<JobNo, A>) -> Result<(), AllocError>
    ensures { OnOk result (IsPermutation order.old.items order.new.items) }
{
    let jobs = order.len();
    if jobs < 2 {
        return Ok(());
    }
    let from = below(chance, jobs);
    let place = below(chance, jobs - 1);
    let job = order.remove(from);
    let to = if place < from { place } else { place + 1 };
    order.insert(to, job)?;
    Ok(())
}

/// An order with one job at another place, or, one time in four, with two.
pub(crate) fn moved_by_chance<A: Allocator + Copy>(
    alloc: A,
    chance: &mut Pcg32,
    order: &[JobNo],
) -> Result<Vec<JobNo, A>, AllocError>
    ensures { IfOk result (λ next. IsPermutation order.now next.items) }
{
    let mut next = Vec::from_slice(alloc, order)?;
    move_one(chance, &mut next)?;
    if below(chance, 4) == 0 {
        move_one(chance, &mut next)?;
    }
    Ok(next)
}
