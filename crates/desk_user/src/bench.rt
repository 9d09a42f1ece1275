//! A bench and its desks, with what every other call asks of them.
ghost use Rattle.std.specs.Prelude.{◌≡◌, IfOk};
ghost use Rattle.turns.specs.Lists.{Each};
ghost use Rattle.edge_rule.specs.DeskView.{Owns};
ghost use Rattle.edge_rule.specs.Ending.{HasAll};
ghost use Rattle.desk_user.specs.Use.{opened};

use edge_rule::{Bench, Desk, OpenError};
use lab_plan::Plan;
use std::alloc::Allocator;

/// A bench for the plan, in the initial state, and a desk for each job in ascending order, as `Bench::open` makes them. Each desk is of the bench, and each
/// job has one, which is what driving and closing them asks.
pub fn open<'p, A: Allocator + Copy>(
    alloc: A,
    plan: &'p Plan<A>,
) -> Result<(Bench<'p, A>, Vec<Desk<A>, A>), OpenError>
    ensures bench { IfOk result (λ r. (r.0.plan ≡ plan.now) × (r.1.items ≡ opened r.0)) }
    ensures own { IfOk result (λ r. Each (Owns r.0) r.1.items) }
    ensures all { IfOk result (λ r. HasAll r.0.plan r.1.items) }
{
    match Bench::open(alloc, plan) {
        Ok((bench, desks)) => Ok((bench, desks)),
        Err(error) => Err(error),
    }
}
