//! Jobs in the order in which they precede one another.
ghost use Rattle.std.specs.Prelude.{IfOk};
ghost use Rattle.overtaking.specs.Rankings.{IsRankingOf};

use cycles::NoMemory;
use interleaving::World;
use lab_plan::JobNo;
use std::alloc::Allocator;

/// Every job of the world's plan once, each before all that it precedes (Chandy and Misra 1984).
///
/// There is always such an order, because precedence has no cycle in any state of a world. If there are several, any one is answered.
/// Memory is taken in proportion to the jobs and the edges. The error comes only if an allocation fails.
pub fn ranking<A: Allocator + Copy, B: Allocator>(
    alloc: A,
    world: &World<'_, B>,
) -> Result<Vec<JobNo, A>, NoMemory>
    ensures { IfOk result (λ order. IsRankingOf world.now.plan world.now.state order.items) }
{
    let pairs = world.precedence(alloc)?;
    cycles::ranking(alloc, world.plan().jobs(), &pairs)
}
