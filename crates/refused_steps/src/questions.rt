//! What is asked of a world: its jobs, their edges, how far they are, and what they need.
ghost use Rattle.std.specs.Prelude.{◌≡◌, ◌<◌, ◌↔◌, IsTrue, length};
ghost use Rattle.lab_plan.specs.Limits.{most_bottles};
ghost use Rattle.lab_plan.specs.LabPlan.{edges, bottles};
ghost use Rattle.legal_steps.specs.State.{IsOwn, IsDrinking, phase as phase_at};
ghost use Rattle.legal_steps.specs.Legal.{IsJob, Needs, instrument_of};

use interleaving::World;
use lab_plan::{EdgeNo, JobNo};
use legal_steps::has;
use std::alloc::Allocator;

pub(crate) fn is_job<A: Allocator>(world: &World<'_, A>, job: JobNo) -> bool
    ensures { IsTrue result ↔ IsJob world.now.plan job }
{
    (job.0 as usize) < world.plan().jobs()
}

/// Whether the edge is one of the job's.
pub(crate) fn owns<A: Allocator>(world: &World<'_, A>, job: JobNo, edge: EdgeNo) -> bool
    ensures { IsTrue result ↔ IsOwn world.now.plan job edge }
{
    if edge.0 >= world.plan().edges() {
        return false;
    }
    let (lower, higher) = world.plan().ends(edge);
    lower == job || higher == job
}

/// Whether the job needs the bottle of the edge: it is in a session that names its instrument.
#[tactic(auto, unfolding(legal_steps::specs::State::Has), using(lab_plan::proofs::Readers::few_bottles))]
pub(crate) fn needs_bottle<A: Allocator>(
    world: &World<'_, A>,
    job: JobNo,
    edge: EdgeNo,
    bottle: u32,
) -> bool
    requires is_job { IsJob world.now.plan job }
    requires is_edge { edge < length (edges world.now.plan) }
    requires is_bottle { bottle < length (bottles world.now.plan edge) }
    ensures few { bottle < most_bottles }
    ensures needs { IsTrue result ↔ Needs world.now.plan world.now.state job (instrument_of world.now.plan edge bottle) }
{
    let plan = world.plan();
    let phase = world.job(job);
    phase.is_in_session() && has(plan.needed_bottles(job, phase.session, edge), bottle)
}

/// Whether the job drinks or reaches.
pub(crate) fn is_drinking<A: Allocator>(world: &World<'_, A>, job: JobNo) -> bool
    requires { IsJob world.now.plan job }
    ensures { IsTrue result ↔ IsDrinking (phase_at world.now.state job) }
{
    world.job(job).is_drinking()
}
