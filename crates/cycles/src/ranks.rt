//! Ranking jobs along pairs that have no cycle.
ghost use Rattle.std.specs.Prelude.{◌≡◌, ℕ, ◌≤◌, IfOk};
ghost use Rattle.cycles.specs.Cycles.{AreBelow, IsAmong, HasNoCycle};
ghost use Rattle.cycles.specs.Rankings.{IsRanking};

use crate::no_memory::NoMemory;
use crate::sinks::sink;
use lab_plan::JobNo;
use std::alloc::Allocator;

/// The jobs below `jobs`, each before all to which a pair leads from it.
///
/// Each pair leads from its first job to its second, and both are below `jobs`. Sinks are taken out
/// one by one, so the last of the ranking are found first. Of several rankings any one is answered.
/// Memory is taken in proportion to `jobs`; time at most to its square, times the number of pairs.
/// The error comes only if an allocation fails.
pub fn ranking<A: Allocator + Copy>(
    alloc: A,
    jobs: usize,
    pairs: &[(JobNo, JobNo)],
) -> Result<Vec<JobNo, A>, NoMemory>
    requires numbered { jobs ≤ 256 }
    requires below { AreBelow jobs pairs.now }
    requires acyclic { HasNoCycle (IsAmong pairs.now) }
    ensures { IfOk result (λ order. IsRanking jobs pairs.now order.items) }
{
    let mut left = vec![in alloc; true; jobs]?;
    let mut order = Vec::new(alloc);
    while let Some(job) = sink(pairs, &left) {
        left[job] = false;
        order.push(JobNo(job as u8))?;
    }
    order.reverse();
    Ok(order)
}
