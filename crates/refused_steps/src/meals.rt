//! Hunger and meals.
ghost use Rattle.std.specs.Prelude.{◌≡◌};
ghost use Rattle.legal_steps.specs.declared.event.Event.TheVariants.{Hunger, Sit, Leave};
ghost use Rattle.refused_steps.specs.Causes.{Explains, Fails, IsUnmarked};

use crate::cause::Cause;
use crate::marks::unmarked_edge;
use crate::questions::is_job;
use interleaving::{Dining, Drinking, End, World};
use lab_plan::{EdgeNo, JobNo};
use std::alloc::Allocator;

pub(crate) fn hunger<A: Allocator>(world: &World<'_, A>, job: JobNo) -> Option<Cause>
    ensures { Explains world.now.plan world.now.state (Hunger job) result }
{
    if !is_job(world, job) {
        return Some(Cause::NotJob);
    }
    let phase = world.job(job);
    if phase.dining != Dining::Thinking {
        return Some(Cause::NotThinking);
    }
    if phase.drinking != Drinking::Thirsty {
        return Some(Cause::NotThirsty);
    }
    None
}

/// Why a hungry job has no mark for the fork of one of its edges.
fn unmarked_hungry<A: Allocator>(world: &World<'_, A>, job: JobNo, edge: EdgeNo) -> Cause
    requires { IsUnmarked world.now.plan world.now.state job edge }
    ensures { Fails world.now.plan world.now.state (Sit job) result }
{
    let here = End::of(world.plan(), job, edge);
    let state = world.edge(edge);
    if state.fork != here {
        return Cause::UnmarkedAway(edge);
    }
    if state.dirty && state.token == here {
        return Cause::UnmarkedClaimed(edge);
    }
    Cause::UnmarkedUnseen(edge)
}

pub(crate) fn sit<A: Allocator>(world: &World<'_, A>, job: JobNo) -> Option<Cause>
    ensures { Explains world.now.plan world.now.state (Sit job) result }
{
    if !is_job(world, job) {
        return Some(Cause::NotJob);
    }
    if world.job(job).dining != Dining::Hungry {
        return Some(Cause::NotHungry);
    }
    let edge = unmarked_edge(world, job)?;
    Some(unmarked_hungry(world, job, edge))
}

/// Why an eating job has no mark for the fork of one of its edges.
fn unmarked_eating<A: Allocator>(world: &World<'_, A>, job: JobNo, edge: EdgeNo) -> Cause
    requires { IsUnmarked world.now.plan world.now.state job edge }
    ensures { Fails world.now.plan world.now.state (Leave job) result }
{
    let state = world.edge(edge);
    if state.fork != End::of(world.plan(), job, edge) {
        return Cause::UnmarkedAway(edge);
    }
    if !state.dirty {
        return Cause::UnmarkedClean(edge);
    }
    Cause::UnmarkedUnseen(edge)
}

pub(crate) fn leave<A: Allocator>(world: &World<'_, A>, job: JobNo) -> Option<Cause>
    ensures { Explains world.now.plan world.now.state (Leave job) result }
{
    if !is_job(world, job) {
        return Some(Cause::NotJob);
    }
    let phase = world.job(job);
    if phase.dining != Dining::Eating {
        return Some(Cause::NotEating);
    }
    if phase.drinking == Drinking::Thirsty {
        return Some(Cause::Thirsts);
    }
    let edge = unmarked_edge(world, job)?;
    Some(unmarked_eating(world, job, edge))
}
