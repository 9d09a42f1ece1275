//! Marks that a job doesn't have.
ghost use Rattle.std.specs.Prelude.{◌≡◌, ◌<◌, ◌↔◌, IsTrue, length, MatchOption};
ghost use Rattle.lab_plan.specs.LabPlan.{edges};
ghost use Rattle.legal_steps.specs.State.{IsOwn};
ghost use Rattle.legal_steps.specs.Legal.{IsJob, IsMarkedAll, HasNeeded, HasNeededAt};
ghost use Rattle.refused_steps.specs.Causes.{IsUnmarked, IsMissing};

use crate::questions::needs_bottle;
use interleaving::World;
use lab_plan::{EdgeNo, JobNo};
use legal_steps::has;
use std::alloc::Allocator;

/// The first of the job's edges for whose fork it has no mark.
pub(crate) fn unmarked_edge<A: Allocator>(world: &World<'_, A>, job: JobNo) -> Option<EdgeNo>
    requires { IsJob world.now.plan job }
    ensures { MatchOption result (IsMarkedAll world.now.plan world.now.state job) (IsUnmarked world.now.plan world.now.state job) }
{
    let own = world.plan().edges_of(job);
    for edge in own {
        if !world.fork_mark(job, *edge) {
            return Some(*edge);
        }
    }
    None
}

/// The first needed bottle of an edge for which the job has no mark.
fn missing_at<A: Allocator>(world: &World<'_, A>, job: JobNo, edge: EdgeNo) -> Option<u32>
    requires is_job { IsJob world.now.plan job }
    requires own { IsOwn world.now.plan job edge }
    ensures { MatchOption result (HasNeededAt world.now.plan world.now.state job edge) (IsMissing world.now.plan world.now.state job edge) }
{
    let marks = world.bottle_marks(job, edge);
    for bottle in 0..world.plan().bottles(edge) {
        if needs_bottle(world, job, edge, bottle) && !has(marks, bottle) {
            return Some(bottle);
        }
    }
    None
}

/// The first of the job's edges with a needed bottle for which it has no mark, and that bottle.
pub(crate) fn missing_bottle<A: Allocator>(
    world: &World<'_, A>,
    job: JobNo,
) -> Option<(EdgeNo, u32)>
    requires { IsJob world.now.plan job }
    ensures { MatchOption result (HasNeeded world.now.plan world.now.state job) (λ at. IsMissing world.now.plan world.now.state job at.0 at.1) }
{
    let own = world.plan().edges_of(job);
    for edge in own {
        if let Some(bottle) = missing_at(world, job, *edge) {
            return Some((*edge, bottle));
        }
    }
    None
}
