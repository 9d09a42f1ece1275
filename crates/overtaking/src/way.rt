//! A way on: an event that is legal and changes the state.
ghost use Rattle.std.specs.Prelude.{◌≡◌, ℕ, ◌<◌, ◌↔◌, IsTrue, length, IfSome, IfNone};
ghost use Rattle.std.specs.List.{All};
ghost use Rattle.lab_plan.specs.LabPlan.{edges, bottles};
ghost use Rattle.legal_steps.specs.State.{IsOwn};
ghost use Rattle.legal_steps.specs.Legal.{IsJob, May};
ghost use Rattle.overtaking.specs.Stuck.{AllRetired, IsMove, IsWayOn};
ghost use Rattle.overtaking.specs.Ways.{HasNoPhaseWay, HasNoForkWay, HasNoBottleWay, HasNoPhaseWays, HasNoForkWays, HasNoBottleWays};

use crate::marks::is_up_to_date;
use interleaving::{Drinking, Event, World};
use lab_plan::{EdgeNo, JobNo};
use std::alloc::Allocator;

/// An event that is legal now and changes the state, and isn't a Withdraw; `None` exactly if all jobs have retired.
///
/// Of several events one is answered by this order: what a job does by itself; looks, and what is done with forks;
/// bottles, one at a time. So bottles move only if no fork does, and whoever has the fork keeps them.
pub fn way_on<A: Allocator>(world: &World<'_, A>) -> Option<Event>
    ensures leads_on { IfSome result (λ event. IsWayOn world.now.plan world.now.state event) }
    ensures not_at_end { IfSome result (λ _. ¬ AllRetired world.now.plan world.now.state) }
    ensures end { IfNone result (AllRetired world.now.plan world.now.state) }
{
    // this call ensures that the state is reached, so that the laws of such states hold
    let _ = world.plan();
    if are_all_retired(world) {
        return None;
    }
    if let Some(event) = any_phase(world) {
        return Some(event);
    }
    if let Some(event) = any_fork(world) {
        return Some(event);
    }
    any_bottle(world)
}

fn are_all_retired<A: Allocator>(world: &World<'_, A>) -> bool
    ensures { IsTrue result ↔ AllRetired world.now.plan world.now.state }
{
    for job in 0..world.plan().jobs() {
        if world.job(JobNo(job as u8)).drinking != Drinking::Retired {
            return false;
        }
    }
    true
}

/// The first of the events that is legal.
fn first_legal<A: Allocator>(world: &World<'_, A>, events: &[Event]) -> Option<Event>
    requires { All IsMove events.now }
    ensures leads_on { IfSome result (λ event. IsWayOn world.now.plan world.now.state event) }
    ensures none { IfNone result (All (λ event. ¬ May world.now.plan world.now.state event) events.now) }
{
    // this call ensures that the state is reached, so that the laws of such states hold
    let _ = world.plan();
    for event in events {
        if world.enabled(*event) {
            return Some(*event);
        }
    }
    None
}

/// What the job can do by itself.
#[tactic(auto, using(crate::proofs::Ways::no_phase_of))]
fn phase_way<A: Allocator>(world: &World<'_, A>, job: JobNo) -> Option<Event>
    ensures leads_on { IfSome result (λ event. IsWayOn world.now.plan world.now.state event) }
    ensures none { IfNone result (HasNoPhaseWay world.now.plan world.now.state job) }
{
    first_legal(
        world,
        &[
            Event::Quit(job),
            Event::Reach(job),
            Event::Act(job),
            Event::Drink(job),
            Event::Leave(job),
            Event::Sit(job),
            Event::Thirst(job),
            Event::Hunger(job),
            Event::Retire(job),
        ],
    )
}

/// What any job can do by itself.
fn any_phase<A: Allocator>(world: &World<'_, A>) -> Option<Event>
    ensures leads_on { IfSome result (λ event. IsWayOn world.now.plan world.now.state event) }
    ensures none { IfNone result (HasNoPhaseWays world.now.plan world.now.state) }
{
    for job in 0..world.plan().jobs() {
        if let Some(event) = phase_way(world, JobNo(job as u8)) {
            return Some(event);
        }
    }
    None
}

/// A look that changes a mark, or what the job can do with the fork.
#[tactic(auto, using(crate::proofs::Ways::no_fork_of))]
fn fork_way<A: Allocator>(world: &World<'_, A>, job: JobNo, edge: EdgeNo) -> Option<Event>
    requires { IsOwn world.now.plan job edge }
    ensures leads_on { IfSome result (λ event. IsWayOn world.now.plan world.now.state event) }
    ensures none { IfNone result (HasNoForkWay world.now.plan world.now.state job edge) }
{
    // this call ensures that the state is reached, so that the laws of such states hold
    let _ = world.plan();
    if !is_up_to_date(world, job, edge) {
        return Some(Event::Look(job, edge, world.edge(edge)));
    }
    first_legal(
        world,
        &[
            Event::Soil(job, edge),
            Event::GiveFork(job, edge),
            Event::AskFork(job, edge),
        ],
    )
}

/// The same on any edge, for both its jobs.
fn any_fork<A: Allocator>(world: &World<'_, A>) -> Option<Event>
    ensures leads_on { IfSome result (λ event. IsWayOn world.now.plan world.now.state event) }
    ensures none { IfNone result (HasNoForkWays world.now.plan world.now.state) }
{
    for number in 0..world.plan().edges() {
        let edge = EdgeNo(number);
        let (lower, higher) = world.plan().ends(edge);
        if let Some(event) = fork_way(world, lower, edge) {
            return Some(event);
        }
        if let Some(event) = fork_way(world, higher, edge) {
            return Some(event);
        }
    }
    None
}

/// What the job can do with a bottle of the edge.
fn bottle_way<A: Allocator>(world: &World<'_, A>, job: JobNo, edge: EdgeNo) -> Option<Event>
    requires { IsOwn world.now.plan job edge }
    ensures leads_on { IfSome result (λ event. IsWayOn world.now.plan world.now.state event) }
    ensures none { IfNone result (HasNoBottleWay world.now.plan world.now.state job edge) }
{
    for bottle in 0..world.plan().bottles(edge) {
        let one = 1u32 << bottle;
        let events = [
            Event::GiveBottles(job, edge, one),
            Event::AskBottles(job, edge, one),
        ];
        if let Some(event) = first_legal(world, &events) {
            return Some(event);
        }
    }
    None
}

/// The same on any edge, for both its jobs.
fn any_bottle<A: Allocator>(world: &World<'_, A>) -> Option<Event>
    ensures leads_on { IfSome result (λ event. IsWayOn world.now.plan world.now.state event) }
    ensures none { IfNone result (HasNoBottleWays world.now.plan world.now.state) }
{
    for number in 0..world.plan().edges() {
        let edge = EdgeNo(number);
        let (lower, higher) = world.plan().ends(edge);
        if let Some(event) = bottle_way(world, lower, edge) {
            return Some(event);
        }
        if let Some(event) = bottle_way(world, higher, edge) {
            return Some(event);
        }
    }
    None
}
