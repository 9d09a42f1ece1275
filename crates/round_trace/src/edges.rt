//! The visits of a turn: each edge of the job is looked at, and then what is legal there is done.
ghost use Rattle.std.specs.Prelude.{◌≡◌, ◌<◌, length, IfOk};
ghost use Rattle.lab_plan.specs.LabPlan.{edges_of};
ghost use Rattle.legal_steps.specs.State.{IsOwn};
ghost use Rattle.round_trace.specs.Doing.{VisitsEdge, VisitsEdges};

use crate::attempt::attempt;
use crate::bottles::{ask_all, give_all};
use interleaving::World;
use lab_plan::{EdgeNo, JobNo};
use legal_steps::Event;
use std::alloc::{AllocError, Allocator};

/// Looks at the edge, and does what is legal there, in the order of moves.
fn visit<A: Allocator>(
    world: &mut World<A>,
    events: &mut Vec<Event, A>,
    job: JobNo,
    edge: EdgeNo,
) -> Result<(), AllocError>
    requires { IsOwn world.old.plan job edge }
    ensures { IfOk result (λ _. VisitsEdge world.old events.old.items job edge world.new events.new.items) }
{
    let seen = world.edge(edge);
    let _looked = attempt(world, events, &Event::Look(job, edge, seen))?;
    let _gave = attempt(world, events, &Event::GiveFork(job, edge))?;
    let _given = give_all(world, events, job, edge)?;
    let _asked = attempt(world, events, &Event::AskFork(job, edge))?;
    let _wanted = ask_all(world, events, job, edge)?;
    let _soiled = attempt(world, events, &Event::Soil(job, edge))?;
    Ok(())
}

/// Visits each edge of the job, in the order of the plan.
pub(crate) fn visit_all<A: Allocator>(
    world: &mut World<A>,
    events: &mut Vec<Event, A>,
    job: JobNo,
) -> Result<(), AllocError>
    requires { job < length world.old.plan.jobs }
    ensures { IfOk result (λ _. VisitsEdges world.old events.old.items job (edges_of world.old.plan job) world.new events.new.items) }
{
    for place in 0..world.plan().edges_of(job).len() {
        let edge = world.plan().edges_of(job)[place];
        visit(world, events, job, edge)?;
    }
    Ok(())
}
