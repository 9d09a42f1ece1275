//! Why an event of any kind isn't legal.
ghost use Rattle.std.specs.Prelude.{◌≡◌, IfSome};
ghost use Rattle.legal_steps.specs.declared.event.Event.TheVariants.{Glance};
ghost use Rattle.legal_steps.specs.Legal.{May};
ghost use Rattle.refused_steps.specs.Causes.{Explains};

use crate::bottle_moves::{BottleMove, move_bottles};
use crate::cause::Cause;
use crate::forks::{ask_fork, give_fork, look, soil};
use crate::meals::{hunger, leave, sit};
use crate::questions::is_job;
use crate::sessions::{act, drink, quit, reach, retire, thirst, withdraw};
use interleaving::{Event, JobState, World};
use lab_plan::JobNo;
use std::alloc::Allocator;

fn glance<A: Allocator>(
    world: &World<'_, A>,
    job: JobNo,
    other: JobNo,
    seen: JobState,
) -> Option<Cause>
    ensures { Explains world.now.plan world.now.state (Glance job other seen) result }
{
    if !is_job(world, job) {
        return Some(Cause::NotJob);
    }
    if !is_job(world, other) {
        return Some(Cause::OtherNotJob);
    }
    if other == job {
        return Some(Cause::Itself);
    }
    if world.job(other) != seen {
        return Some(Cause::SeesElse);
    }
    None
}

/// The first part of the event's guard that fails, by its kind.
fn cause_of<A: Allocator>(world: &World<'_, A>, event: &Event) -> Option<Cause>
    ensures { Explains world.now.plan world.now.state event.now result }
{
    match *event {
        Event::Look(job, edge, seen) => look(world, job, edge, seen),
        Event::AskFork(job, edge) => ask_fork(world, job, edge),
        Event::GiveFork(job, edge) => give_fork(world, job, edge),
        Event::Soil(job, edge) => soil(world, job, edge),
        Event::AskBottles(job, edge, set) => move_bottles(world, job, edge, set, BottleMove::Ask),
        Event::GiveBottles(job, edge, set) => move_bottles(world, job, edge, set, BottleMove::Give),
        Event::Thirst(job) => thirst(world, job),
        Event::Hunger(job) => hunger(world, job),
        Event::Sit(job) => sit(world, job),
        Event::Leave(job) => leave(world, job),
        Event::Drink(job) => drink(world, job),
        Event::Reach(job) => reach(world, job),
        Event::Act(job) => act(world, job),
        Event::Quit(job) => quit(world, job),
        Event::Retire(job) => retire(world, job),
        Event::Glance(job, other, seen) => glance(world, job, other, seen),
        Event::Withdraw(job) => withdraw(world, job),
    }
}

/// Why the event isn't legal now; `None` exactly if it is legal.
///
/// Of several causes the first is given, in the order in which its guard names them, and of several edges
/// and bottles the one with the lowest number.
pub fn why_not<A: Allocator>(world: &World<'_, A>, event: &Event) -> Option<Cause>
    ensures explains { Explains world.now.plan world.now.state event.now result }
    ensures refused { IfSome result (λ _. ¬ May world.now.plan world.now.state event.now) }
{
    cause_of(world, event)
}
