//! All bottles of an edge that may go, at once.
ghost use Rattle.std.specs.Prelude.{◌≡◌, IfOk};
ghost use Rattle.legal_steps.specs.declared.phase.Drinking.TheVariants.{Thirsty};
ghost use Rattle.legal_steps.specs.declared.event.Event.TheVariants.{AskBottles, GiveBottles};
ghost use Rattle.legal_steps.specs.State.{IsOwn, drinking};
ghost use Rattle.legal_steps.specs.Legal.{MayAskBottle, MayGiveBottle};
ghost use Rattle.turns.specs.Due.{IsGreatest};
ghost use Rattle.round_trace.specs.Doing.{MovesAll};

use crate::attempt::attempt;
use interleaving::World;
use lab_plan::{EdgeNo, JobNo};
use legal_steps::Event;
use std::alloc::{AllocError, Allocator};

/// All bottles that the job may give.
fn gifts<A: Allocator>(world: &World<A>, job: JobNo, edge: EdgeNo) -> u32
    requires { IsOwn world.now.plan job edge }
    ensures { IsGreatest world.now.plan edge result (MayGiveBottle world.now.plan world.now.state job edge) }
{
    let mut set = 0u32;
    for bottle in 0..world.plan().bottles(edge) {
        if world.enabled(Event::GiveBottles(job, edge, 1 << bottle)) {
            set |= 1 << bottle;
        }
    }
    set
}

/// All bottles that the job may ask for.
fn wishes<A: Allocator>(world: &World<A>, job: JobNo, edge: EdgeNo) -> u32
    requires { IsOwn world.now.plan job edge }
    ensures { IsGreatest world.now.plan edge result (λ k. (drinking world.now.state job ≡ Thirsty) × MayAskBottle world.now.plan world.now.state job edge k) }
{
    let mut set = 0u32;
    for bottle in 0..world.plan().bottles(edge) {
        if world.enabled(Event::AskBottles(job, edge, 1 << bottle)) {
            set |= 1 << bottle;
        }
    }
    set
}

/// Gives all bottles that may be given.
pub(crate) fn give_all<A: Allocator>(
    world: &mut World<A>,
    events: &mut Vec<Event, A>,
    job: JobNo,
    edge: EdgeNo,
) -> Result<u32, AllocError>
    requires { IsOwn world.old.plan job edge }
    ensures { IfOk result (λ set. MovesAll (MayGiveBottle world.old.plan world.old.state job edge)
        (λ set. GiveBottles job edge set) edge world.old events.old.items set world.new events.new.items) }
{
    let set = gifts(world, job, edge);
    let _moved = attempt(world, events, &Event::GiveBottles(job, edge, set))?;
    Ok(set)
}

/// Asks for all bottles that may be asked for.
pub(crate) fn ask_all<A: Allocator>(
    world: &mut World<A>,
    events: &mut Vec<Event, A>,
    job: JobNo,
    edge: EdgeNo,
) -> Result<u32, AllocError>
    requires { IsOwn world.old.plan job edge }
    ensures { IfOk result (λ set. MovesAll (λ k. (drinking world.old.state job ≡ Thirsty) × MayAskBottle world.old.plan world.old.state job edge k)
        (λ set. AskBottles job edge set) edge world.old events.old.items set world.new events.new.items) }
{
    let set = wishes(world, job, edge);
    let _moved = attempt(world, events, &Event::AskBottles(job, edge, set))?;
    Ok(set)
}
