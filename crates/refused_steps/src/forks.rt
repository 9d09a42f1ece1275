//! Looks, and what is done with forks.
ghost use Rattle.std.specs.Prelude.{◌≡◌};
ghost use Rattle.legal_steps.specs.declared.event.Event.TheVariants.{Look, AskFork, GiveFork, Soil};
ghost use Rattle.refused_steps.specs.Causes.{Explains};

use crate::cause::Cause;
use crate::questions::owns;
use interleaving::{Dining, EdgeState, End, World};
use lab_plan::{EdgeNo, JobNo};
use std::alloc::Allocator;

pub(crate) fn look<A: Allocator>(
    world: &World<'_, A>,
    job: JobNo,
    edge: EdgeNo,
    seen: EdgeState,
) -> Option<Cause>
    ensures { Explains world.now.plan world.now.state (Look job edge seen) result }
{
    if !owns(world, job, edge) {
        return Some(Cause::NotOwn);
    }
    if world.edge(edge) != seen {
        return Some(Cause::SeesElse);
    }
    None
}

pub(crate) fn ask_fork<A: Allocator>(
    world: &World<'_, A>,
    job: JobNo,
    edge: EdgeNo,
) -> Option<Cause>
    ensures { Explains world.now.plan world.now.state (AskFork job edge) result }
{
    if !owns(world, job, edge) {
        return Some(Cause::NotOwn);
    }
    let here = End::of(world.plan(), job, edge);
    let state = world.edge(edge);
    if world.job(job).dining != Dining::Hungry {
        return Some(Cause::NotHungry);
    }
    if state.fork == here {
        return Some(Cause::ForkHere);
    }
    if state.token != here {
        return Some(Cause::TokenThere);
    }
    None
}

pub(crate) fn give_fork<A: Allocator>(
    world: &World<'_, A>,
    job: JobNo,
    edge: EdgeNo,
) -> Option<Cause>
    ensures { Explains world.now.plan world.now.state (GiveFork job edge) result }
{
    if !owns(world, job, edge) {
        return Some(Cause::NotOwn);
    }
    let here = End::of(world.plan(), job, edge);
    let state = world.edge(edge);
    if world.job(job).dining == Dining::Eating {
        return Some(Cause::Eats);
    }
    if state.fork != here {
        return Some(Cause::ForkThere);
    }
    if !state.dirty {
        return Some(Cause::ForkClean);
    }
    if state.token != here {
        return Some(Cause::TokenThere);
    }
    None
}

pub(crate) fn soil<A: Allocator>(world: &World<'_, A>, job: JobNo, edge: EdgeNo) -> Option<Cause>
    ensures { Explains world.now.plan world.now.state (Soil job edge) result }
{
    if !owns(world, job, edge) {
        return Some(Cause::NotOwn);
    }
    let here = End::of(world.plan(), job, edge);
    let state = world.edge(edge);
    if world.job(job).dining != Dining::Eating {
        return Some(Cause::NotEating);
    }
    if state.fork != here {
        return Some(Cause::ForkThere);
    }
    if state.dirty {
        return Some(Cause::ForkDirty);
    }
    None
}
