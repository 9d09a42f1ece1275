//! Rounds that go on behind a list of steps.
ghost use Rattle.std.specs.Prelude.{◌≡◌, [], map, IfOk, IfErr};
ghost use Rattle.std.specs.List.{All};
ghost use Rattle.legal_steps.specs.Opening.{the_opening};
ghost use Rattle.legal_steps.specs.Steps.{IsStepOf};
ghost use Rattle.interleaving.specs.Start.{at_start};
ghost use Rattle.round_trace.specs.Doing.{Does, TakesAll};
ghost use Rattle.round_trace.specs.InHand.{acts_in_hand, BringsToRest};
ghost use Rattle.round_trace.specs.Traces.{GoesOnByRounds, IsNotTraced};

use crate::attempt::attempt;
use crate::in_hand::acts_in_hand;
use crate::whole_trace::{all_players, play};
use interleaving::World;
use lab_plan::Plan;
use legal_steps::{Event, StepLine};
use std::alloc::{AllocError, Allocator};

/// Why no rounds go on behind some steps.
#[derive(Clone, Copy, PartialEq, Eq, Debug)]
pub enum NotTraced {
    /// An allocation failed.
    NoMemory,
    /// The step at this place, counted from 0, is the first that isn't legal.
    NotLegal(usize),
}

/// Takes the steps while they are legal, and adds their events; answers the place of the first that isn't.
fn take_all<A: Allocator>(
    world: &mut World<A>,
    events: &mut Vec<Event, A>,
    steps: &[StepLine],
) -> Result<Option<usize>, AllocError>
    requires own { All (λ line. IsStepOf world.old.plan line.step) steps.now }
    requires none { events.old.items ≡ [] }
    ensures { IfOk result (TakesAll world.old steps.now world.new events.new.items) }
{
    let mut place = 0;
    for line in steps {
        let event = world.event_of(&line.step);
        let done = attempt(world, events, &event)?;
        if !done {
            return Ok(Some(place));
        }
        place += 1;
    }
    Ok(None)
}

/// Does the acts of the commands in hand.
fn act_all<A: Allocator + Copy>(
    alloc: A,
    world: &mut World<A>,
    events: &mut Vec<Event, A>,
) -> Result<(), AllocError>
    ensures acted { IfOk result (λ _. Does world.old events.old.items (acts_in_hand world.old.plan world.old.state) world.new events.new.items) }
    ensures rests { IfOk result (λ _. BringsToRest world.old.plan world.old.state (acts_in_hand world.old.plan world.old.state)) }
{
    let acts = acts_in_hand(alloc, world)?;
    let Ok(_) = world.replay(&acts) else {
        unreachable!();
    };
    events.extend_from_slice(&acts)
}

/// Takes the steps, does the acts of the commands in hand, and goes on by rounds, in a world that has no event yet.
fn go_on<A: Allocator + Copy>(
    alloc: A,
    world: &mut World<A>,
    events: &mut Vec<Event, A>,
    steps: &[StepLine],
    limit: u32,
) -> Result<(), NotTraced>
    requires own { All (λ line. IsStepOf world.old.plan line.step) steps.now }
    requires opens { world.old ≡ at_start world.old.plan (the_opening world.old.plan) }
    requires none { events.old.items ≡ [] }
    ensures goes_on { IfOk result (λ _. GoesOnByRounds world.old.plan limit (map (λ line. line.step) steps.now) events.new.items) }
    ensures refused { IfErr result (IsNotTraced world.old.plan (map (λ line. line.step) steps.now)) }
{
    match take_all(world, events, steps) {
        Ok(None) => {}
        Ok(Some(place)) => return Err(NotTraced::NotLegal(place)),
        Err(_) => return Err(NotTraced::NoMemory),
    }
    let Ok(()) = act_all(alloc, world, events) else {
        return Err(NotTraced::NoMemory);
    };
    let Ok(mut players) = all_players(alloc, world.plan()) else {
        return Err(NotTraced::NoMemory);
    };
    let Ok(_) = play(world, events, &mut players, limit) else {
        return Err(NotTraced::NoMemory);
    };
    Ok(())
}

/// The events of all that.
fn all_events<A: Allocator + Copy>(
    alloc: A,
    world: &mut World<A>,
    steps: &[StepLine],
    limit: u32,
) -> Result<Vec<Event, A>, NotTraced>
    requires own { All (λ line. IsStepOf world.old.plan line.step) steps.now }
    requires opens { world.old ≡ at_start world.old.plan (the_opening world.old.plan) }
    ensures goes_on { IfOk result (λ events. GoesOnByRounds world.old.plan limit (map (λ line. line.step) steps.now) events.items) }
    ensures refused { IfErr result (IsNotTraced world.old.plan (map (λ line. line.step) steps.now)) }
{
    let mut events = Vec::new(alloc);
    go_on(alloc, world, &mut events, steps, limit)?;
    Ok(events)
}

/// The events of the steps, and then those of rounds as [`trace`](crate::trace) has them, from where the steps lead: at most this many. A job
/// that reaches for a log there does its act before the first round. So a run that ended goes on.
pub fn trace_on<A: Allocator + Copy>(
    alloc: A,
    plan: &Plan<A>,
    steps: &[StepLine],
    limit: u32,
) -> Result<Vec<Event, A>, NotTraced>
    requires { All (λ line. IsStepOf plan.now line.step) steps.now }
    ensures goes_on { IfOk result (λ events. GoesOnByRounds plan.now limit (map (λ line. line.step) steps.now) events.items) }
    ensures refused { IfErr result (IsNotTraced plan.now (map (λ line. line.step) steps.now)) }
{
    let Ok(mut world) = World::opening(alloc, plan) else {
        return Err(NotTraced::NoMemory);
    };
    all_events(alloc, &mut world, steps, limit)
}
