//! Who kept whom waiting in a run by rounds, counted after each round.
ghost use Rattle.std.specs.Prelude.{[], IfOk};
ghost use Rattle.blocking.specs.Blocks.{IsBlockedRun};
ghost use Rattle.blocking.specs.Owing.{CountsTell};

use crate::holdings::Holdings;
use crate::run::BlockedRun;
use crate::sides::{Side, count_round, fresh_sides, take_counts};
use edge_rule::Desk;
use lab_plan::Plan;
use std::alloc::{AllocError, Allocator, Global};
use waiting::{Watcher, watch};

/// What is counted of all rounds so far.
#[derive(Drop)]
struct Counts<A: Allocator = Global> {
    held: Holdings<A>,
    sides: Vec<Side<A>, A>,
}

impl<A: Allocator> Counts<A> {
    /// Before the first round.
    fn new(alloc: A, plan: &Plan<A>) -> Result<Counts<A>, AllocError>
    where
        A: Copy,
        ensures { IfOk result (λ x. CountsTell plan.now x.held.before.items x.held.after.items x.sides.items []) }
    {
        let held = Holdings::new(alloc, plan.jobs())?;
        let sides = fresh_sides(alloc, plan)?;
        Ok(Counts { held, sides })
    }
}

impl<A: Allocator> Watcher<A> for Counts<A> {
    ghost tells = { λ plan x rounds. CountsTell plan x.held.before.items x.held.after.items x.sides.items rounds };

    fn note(&mut self, plan: &Plan<A>, desks: &[Desk<A>], _round: u32) -> Result<(), AllocError> {
        self.held.look(plan, desks);
        count_round(
            plan,
            desks,
            self.held.held_before(),
            self.held.held_after(),
            self.sides.as_mut_slice(),
        );
        Ok(())
    }
}

/// Who kept whom waiting in the run of a plan by at most this many rounds.
///
/// Memory is taken for a bench, for each job's end of an edge, and twice for each bottle there: 27776 at most.
pub fn blocks_by_rounds<A: Allocator + Copy>(
    alloc: A,
    plan: &Plan<A>,
    limit: u32,
) -> Result<BlockedRun<A>, AllocError>
    ensures { IfOk result (IsBlockedRun plan.now limit) }
{
    let mut counts = Counts::new(alloc, plan)?;
    let (number, retired) = watch(alloc, plan, &mut counts, limit)?;
    let blocks = take_counts(alloc, plan, counts.sides.as_mut_slice())?;
    Ok(BlockedRun {
        number,
        retired,
        blocks,
    })
}
