//! Sessions: thirst, commands that are reached for and done, and the ends of sessions.
ghost use Rattle.std.specs.Prelude.{◌≡◌};
ghost use Rattle.legal_steps.specs.declared.event.Event.TheVariants.{Thirst, Drink, Reach, Act, Quit, Retire, Withdraw};
ghost use Rattle.refused_steps.specs.Causes.{Explains, Fails, IsMissing};

use crate::cause::Cause;
use crate::marks::missing_bottle;
use crate::questions::is_job;
use interleaving::{Dining, Drinking, End, World};
use lab_plan::{EdgeNo, JobNo};
use legal_steps::bottle_end;
use std::alloc::Allocator;

pub(crate) fn thirst<A: Allocator>(world: &World<'_, A>, job: JobNo) -> Option<Cause>
    ensures { Explains world.now.plan world.now.state (Thirst job) result }
{
    if !is_job(world, job) {
        return Some(Cause::NotJob);
    }
    let phase = world.job(job);
    if phase.drinking != Drinking::Tranquil {
        return Some(Cause::NotTranquil);
    }
    if phase.dining == Dining::Eating {
        return Some(Cause::Eats);
    }
    if phase.session >= world.plan().sessions(job) {
        return Some(Cause::NoSessionLeft);
    }
    None
}

/// Why a job has no mark for a bottle that it needs.
fn missing<A: Allocator>(world: &World<'_, A>, job: JobNo, edge: EdgeNo, bottle: u32) -> Cause
    requires { IsMissing world.now.plan world.now.state job edge bottle }
    ensures { Fails world.now.plan world.now.state (Drink job) result }
{
    // this call ensures that an edge has few bottles
    let _ = world.plan().bottles(edge);
    if bottle_end(world.edge(edge).bottles, bottle) != End::of(world.plan(), job, edge) {
        return Cause::MissingAway(edge, bottle);
    }
    Cause::MissingUnseen(edge, bottle)
}

pub(crate) fn drink<A: Allocator>(world: &World<'_, A>, job: JobNo) -> Option<Cause>
    ensures { Explains world.now.plan world.now.state (Drink job) result }
{
    if !is_job(world, job) {
        return Some(Cause::NotJob);
    }
    if world.job(job).drinking != Drinking::Thirsty {
        return Some(Cause::NotThirsty);
    }
    let (edge, bottle) = missing_bottle(world, job)?;
    Some(missing(world, job, edge, bottle))
}

pub(crate) fn reach<A: Allocator>(world: &World<'_, A>, job: JobNo) -> Option<Cause>
    ensures { Explains world.now.plan world.now.state (Reach job) result }
{
    if !is_job(world, job) {
        return Some(Cause::NotJob);
    }
    let phase = world.job(job);
    if phase.drinking != Drinking::Drinking {
        return Some(Cause::NotDrinking);
    }
    if phase.position as usize >= world.plan().commands(job, phase.session).len() {
        return Some(Cause::NoCommandLeft);
    }
    None
}

pub(crate) fn act<A: Allocator>(world: &World<'_, A>, job: JobNo) -> Option<Cause>
    ensures { Explains world.now.plan world.now.state (Act job) result }
{
    if !is_job(world, job) {
        return Some(Cause::NotJob);
    }
    if world.job(job).drinking != Drinking::Reaching {
        return Some(Cause::NotReaching);
    }
    None
}

pub(crate) fn quit<A: Allocator>(world: &World<'_, A>, job: JobNo) -> Option<Cause>
    ensures { Explains world.now.plan world.now.state (Quit job) result }
{
    if !is_job(world, job) {
        return Some(Cause::NotJob);
    }
    let phase = world.job(job);
    if phase.drinking != Drinking::Drinking {
        return Some(Cause::NotDrinking);
    }
    if (phase.position as usize) < world.plan().commands(job, phase.session).len() {
        return Some(Cause::CommandLeft);
    }
    None
}

pub(crate) fn retire<A: Allocator>(world: &World<'_, A>, job: JobNo) -> Option<Cause>
    ensures { Explains world.now.plan world.now.state (Retire job) result }
{
    if !is_job(world, job) {
        return Some(Cause::NotJob);
    }
    let phase = world.job(job);
    if phase.dining != Dining::Thinking {
        return Some(Cause::NotThinking);
    }
    if phase.drinking != Drinking::Tranquil {
        return Some(Cause::NotTranquil);
    }
    if phase.session < world.plan().sessions(job) {
        return Some(Cause::SessionLeft);
    }
    None
}

pub(crate) fn withdraw<A: Allocator>(world: &World<'_, A>, job: JobNo) -> Option<Cause>
    ensures { Explains world.now.plan world.now.state (Withdraw job) result }
{
    if !is_job(world, job) {
        return Some(Cause::NotJob);
    }
    let phase = world.job(job);
    if phase.drinking != Drinking::Thirsty {
        return Some(Cause::NotThirsty);
    }
    if world.plan().patience(job, phase.session).is_none() {
        return Some(Cause::NoPatience);
    }
    None
}
