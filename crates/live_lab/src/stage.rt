//! How far a job is on its way to retire.
ghost use Rattle.legal_steps.specs.Legal.{IsJob};
ghost use Rattle.live_lab.specs.Stages.{IsStage};

use crate::kinds::is_through;
use crate::lab::Lab;
use interleaving::World;
use lab_plan::JobNo;
use legal_steps::Drinking;
use std::alloc::Allocator;

/// How far a job is on its way to retire. On it, it begins no session.
#[derive(Clone, Copy, PartialEq, Eq, Debug)]
pub enum Stage {
    /// It is retired.
    There,
    /// It has no session left, so it may come there.
    OnTheWay,
    /// Sessions are left, so it doesn't come there.
    Barred,
}

/// How far the job is on its way.
pub(crate) fn stage_of<A: Allocator>(world: &World<A>, job: JobNo) -> Stage
    requires { IsJob world.now.plan job }
    ensures { IsStage world.now job result }
{
    let phase = world.job(job);
    if phase.drinking == Drinking::Retired {
        Stage::There
    } else if is_through(world, job) {
        Stage::OnTheWay
    } else {
        Stage::Barred
    }
}

impl Lab {
    pub(crate) fn stage(&self, job: JobNo) -> Stage
        requires { IsJob self.now.world.plan job }
        ensures { IsStage self.now.world job result }
    {
        stage_of(&self.world, job)
    }
}
