//! Where a job may wait: for each bottle of an edge.
ghost use Rattle.std.specs.Prelude.{◌≡◌, ◌<◌, ◌++◌, length, OnOk};
ghost use Rattle.lab_plan.specs.LabPlan.{edges};
ghost use Rattle.blocking.specs.Blocks.{places_on};

use lab_plan::{EdgeNo, JobNo, Plan};
use std::alloc::{AllocError, Allocator};

/// A job, and a bottle of one of its edges.
#[derive(Clone, Copy, PartialEq, Eq, Debug)]
pub(crate) struct Place {
    pub(crate) job: JobNo,
    pub(crate) edge: EdgeNo,
    pub(crate) bottle: u32,
}

/// Adds the places of a job on one of its edges.
pub(crate) fn add_on_edge<A: Allocator, B: Allocator>(
    out: &mut Vec<Place, A>,
    plan: &Plan<B>,
    job: JobNo,
    edge: EdgeNo,
) -> Result<(), AllocError>
    requires { edge < length (edges plan.now) }
    ensures { OnOk result (out.new.items ≡ out.old.items ++ places_on plan.now job edge) }
{
    for bottle in 0..plan.bottles(edge) {
        out.push(Place { job, edge, bottle })?;
    }
    Ok(())
}
