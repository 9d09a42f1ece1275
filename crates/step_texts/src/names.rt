//! The names that texts of steps tell.
ghost use Rattle.std.specs.Prelude.{◌≡◌, ◌<◌, ◌++◌, length, OnOk};
ghost use Rattle.lab_plan.specs.LabPlan.{edges, bottles};
ghost use Rattle.lab_plan.specs.Texts.{job_name};
ghost use Rattle.legal_steps.specs.State.{neighbour as neighbour_of};
ghost use Rattle.step_texts.specs.Names.{other_name, bottle_name};

use lab_plan::{EdgeNo, JobNo, Plan};
use legal_steps::neighbour;
use std::alloc::{AllocError, Allocator};

pub fn add_job<A: Allocator, B: Allocator>(
    out: &mut Vec<u8, A>,
    plan: &Plan<B>,
    job: JobNo,
) -> Result<(), AllocError>
    requires { job < length plan.now.jobs }
    ensures { OnOk result (out.new.items ≡ out.old.items ++ job_name plan.now job) }
{
    out.extend_from_slice(plan.job_name(job))
}

/// Adds the name of the job at the other end of the edge.
pub fn add_other<A: Allocator, B: Allocator>(
    out: &mut Vec<u8, A>,
    plan: &Plan<B>,
    job: JobNo,
    edge: EdgeNo,
) -> Result<(), AllocError>
    requires { edge < length (edges plan.now) }
    ensures { OnOk result (out.new.items ≡ out.old.items ++ other_name plan.now job edge) }
{
    add_job(out, plan, neighbour(plan, job, edge))
}

/// Adds the name of the bottle's instrument.
#[tactic(auto, using(crate::proofs::BottleNames::instrument_below))]
pub fn add_bottle<A: Allocator, B: Allocator>(
    out: &mut Vec<u8, A>,
    plan: &Plan<B>,
    edge: EdgeNo,
    bottle: u32,
) -> Result<(), AllocError>
    requires is_edge { edge < length (edges plan.now) }
    requires is_bottle { bottle < length (bottles plan.now edge) }
    ensures { OnOk result (out.new.items ≡ out.old.items ++ bottle_name plan.now edge bottle) }
{
    out.extend_from_slice(plan.instrument_name(plan.instrument_of(edge, bottle)))
}
