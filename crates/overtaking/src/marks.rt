//! Whether a job's marks are what a look would set.
ghost use Rattle.std.specs.Prelude.{◌↔◌, IsTrue};
ghost use Rattle.legal_steps.specs.State.{IsOwn};
ghost use Rattle.overtaking.specs.Stuck.{IsUpToDate};

use interleaving::{End, World};
use lab_plan::{EdgeNo, JobNo};
use std::alloc::Allocator;

pub(crate) fn is_up_to_date<A: Allocator>(world: &World<'_, A>, job: JobNo, edge: EdgeNo) -> bool
    requires { IsOwn world.now.plan job edge }
    ensures { IsTrue result ↔ IsUpToDate world.now.plan world.now.state job edge }
{
    let here = End::of(world.plan(), job, edge);
    let seen = world.edge(edge);
    world.fork_mark(job, edge) == seen.fork_mark(here, world.job(job).dining)
        && world.bottle_marks(job, edge) == seen.bottles_at(world.plan(), edge, here)
}
