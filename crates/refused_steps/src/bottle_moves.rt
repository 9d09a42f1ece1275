//! Requests for bottles, and bottles that are given.
ghost use Rattle.std.specs.Prelude.{◌≡◌, ℕ, ◌<◌, length, MatchOption};
ghost use Rattle.lab_plan.specs.LabPlan.{edges, bottles};
ghost use Rattle.legal_steps.specs.State.{IsOwn, IsOfEdge, Has};
ghost use Rattle.legal_steps.specs.Legal.{IsBottleSet};
ghost use Rattle.refused_steps.specs.BottleMoves.{MayMove, event_of};
ghost use Rattle.refused_steps.specs.Causes.{Explains, Fails, FailsAsSet};

use crate::cause::Cause;
use crate::questions::{is_drinking, needs_bottle, owns};
use interleaving::{Drinking, End, World};
use lab_plan::{EdgeNo, JobNo};
use legal_steps::{bottle_end, has};
use std::alloc::Allocator;

/// Why this is no set of bottles of the edge with a member.
fn no_set<A: Allocator>(world: &World<'_, A>, edge: EdgeNo, set: u32) -> Option<Cause>
    requires { edge < length (edges world.now.plan) }
    ensures { MatchOption result (IsBottleSet world.now.plan edge set) (FailsAsSet world.now.plan edge set) }
{
    if set == 0 {
        return Some(Cause::NoBottle);
    }
    if set >= 1u32 << world.plan().bottles(edge) {
        return Some(Cause::NotOfEdge);
    }
    None
}

/// What a job does with bottles of an edge.
#[derive(Clone, Copy)]
pub(crate) enum BottleMove {
    Ask,
    Give,
}

/// Why the job may not do this with a bottle of the set.
fn of_bottle<A: Allocator>(
    world: &World<'_, A>,
    job: JobNo,
    edge: EdgeNo,
    set: u32,
    what: BottleMove,
    bottle: u32,
) -> Option<Cause>
    requires own { IsOwn world.now.plan job edge }
    requires is_bottle { bottle < length (bottles world.now.plan edge) }
    requires member { Has set bottle }
    ensures { MatchOption result (MayMove what world.now.plan world.now.state job edge bottle)
        (Fails world.now.plan world.now.state (event_of what job edge set)) }
{
    let here = End::of(world.plan(), job, edge);
    let state = world.edge(edge);
    let needed = needs_bottle(world, job, edge, bottle);
    let is_here = bottle_end(state.bottles, bottle) == here;
    let has_token = bottle_end(state.bottle_tokens, bottle) == here;
    match what {
        BottleMove::Ask if !needed => Some(Cause::NotNeeded(bottle)),
        BottleMove::Ask if is_here => Some(Cause::BottleHere(bottle)),
        BottleMove::Give if !is_here => Some(Cause::BottleThere(bottle)),
        _ if !has_token => Some(Cause::BottleTokenThere(bottle)),
        BottleMove::Ask => None,
        BottleMove::Give if needed && is_drinking(world, job) => Some(Cause::KeptInSession(bottle)),
        BottleMove::Give if needed && state.fork == here => Some(Cause::KeptWithFork(bottle)),
        BottleMove::Give => None,
    }
}

/// Why the job may not do this with the bottles of the set.
fn of_each<A: Allocator>(
    world: &World<'_, A>,
    job: JobNo,
    edge: EdgeNo,
    set: u32,
    what: BottleMove,
) -> Option<Cause>
    requires own { IsOwn world.now.plan job edge }
    requires set { IsOfEdge world.now.plan edge set }
    ensures { MatchOption result ((k : ℕ) → Has set k → MayMove what world.now.plan world.now.state job edge k)
        (Fails world.now.plan world.now.state (event_of what job edge set)) }
{
    for bottle in 0..world.plan().bottles(edge) {
        if has(set, bottle) {
            if let Some(cause) = of_bottle(world, job, edge, set, what, bottle) {
                return Some(cause);
            }
        }
    }
    None
}

/// Why the job may not ask for the bottles, or give them.
pub(crate) fn move_bottles<A: Allocator>(
    world: &World<'_, A>,
    job: JobNo,
    edge: EdgeNo,
    set: u32,
    what: BottleMove,
) -> Option<Cause>
    ensures { Explains world.now.plan world.now.state (event_of what job edge set) result }
{
    if !owns(world, job, edge) {
        return Some(Cause::NotOwn);
    }
    // this call ensures that the job is one of the plan's
    let _ = End::of(world.plan(), job, edge);
    let drinking = world.job(job).drinking;
    match what {
        BottleMove::Ask if drinking != Drinking::Thirsty => return Some(Cause::NotThirsty),
        _ => (),
    }
    if let Some(cause) = no_set(world, edge, set) {
        return Some(cause);
    }
    of_each(world, job, edge, set, what)
}
