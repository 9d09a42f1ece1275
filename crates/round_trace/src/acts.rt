//! The phase act of a turn.
ghost use Rattle.std.specs.Prelude.{◌≡◌, ◌↔◌, IsTrue, IfOk, IfSome, []};
ghost use Rattle.legal_steps.specs.declared.event.Event.TheVariants.{Withdraw};
ghost use Rattle.legal_steps.specs.Legal.{IsJob, May};
ghost use Rattle.turns.specs.Acts.{AreActs, Counts, whole_act};
ghost use Rattle.round_trace.specs.Doing.{ActsDue, Does, first_events};

use crate::attempt::attempt;
use interleaving::World;
use lab_plan::JobNo;
use legal_steps::Event;
use std::alloc::{AllocError, Allocator};

/// Whether the job gives its session up.
fn withdraws<A: Allocator>(world: &World<A>, job: JobNo, waited: u32) -> bool
    requires { IsJob world.now.plan job }
    ensures { IsTrue result ↔ Counts world.now.plan world.now.state job waited (Withdraw job) }
{
    world.job(job).gives_up(world.plan(), job, waited)
}

/// The phase act of a turn that is due: the first that is legal, where a session is given up only when its patience is
/// used up by this count. Of a command it is the Reach, with which its Act is to be done; `None` if no act is due.
pub fn first_act<A: Allocator>(world: &World<A>, job: JobNo, waited: u32) -> Option<Event>
    requires { IsJob world.now.plan job }
    ensures first { AreActs world.now.plan world.now.state job waited (first_events result) }
    ensures may { IfSome result (λ event. May world.now.plan world.now.state event) }
{
    if world.enabled(Event::Quit(job)) {
        return Some(Event::Quit(job));
    }
    if world.enabled(Event::Reach(job)) {
        return Some(Event::Reach(job));
    }
    if world.enabled(Event::Drink(job)) {
        return Some(Event::Drink(job));
    }
    if withdraws(world, job, waited) {
        return Some(Event::Withdraw(job));
    }
    if world.enabled(Event::Leave(job)) {
        return Some(Event::Leave(job));
    }
    if world.enabled(Event::Sit(job)) {
        return Some(Event::Sit(job));
    }
    if world.enabled(Event::Thirst(job)) {
        return Some(Event::Thirst(job));
    }
    if world.enabled(Event::Hunger(job)) {
        return Some(Event::Hunger(job));
    }
    if world.enabled(Event::Retire(job)) {
        return Some(Event::Retire(job));
    }
    None
}

/// Does an act that is legal; with a Reach, its Act.
fn do_act<A: Allocator>(
    world: &mut World<A>,
    events: &mut Vec<Event, A>,
    event: &Event,
) -> Result<(), AllocError>
    requires { May world.old.plan world.old.state event.now }
    ensures { IfOk result (λ _. Does world.old events.old.items (whole_act event.now) world.new events.new.items) }
{
    let _done = attempt(world, events, event)?;
    if let Event::Reach(job) = *event {
        let _acted = attempt(world, events, &Event::Act(job))?;
    }
    Ok(())
}

/// Does the phase act that is due.
pub(crate) fn act<A: Allocator>(
    world: &mut World<A>,
    events: &mut Vec<Event, A>,
    job: JobNo,
    waited: u32,
) -> Result<(), AllocError>
    requires { IsJob world.old.plan job }
    ensures { IfOk result (λ _. ActsDue world.old events.old.items job waited world.new events.new.items) }
{
    match &first_act(world, job, waited) {
        Some(event) => do_act(world, events, event),
        None => Ok(()),
    }
}
