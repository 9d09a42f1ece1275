//! Overtaking, counted in a list of events.
ghost use Rattle.std.specs.Prelude.{◌≡◌, ◌≤◌, ◌<◌, length, slice_get, Some};
ghost use Rattle.lab_plan.specs.LabPlan.{edges};
ghost use Rattle.legal_steps.specs.declared.event.Event.TheVariants.{AskFork};
ghost use Rattle.legal_steps.specs.State.{State, IsOwn, neighbour as neighbour_of};
ghost use Rattle.legal_steps.specs.Opening.{IsOpening};
ghost use Rattle.legal_steps.specs.Run.{IsLegalFrom, is_sit, meals_of};
ghost use Rattle.overtaking.specs.Overtaking.{before_meal, overtaking};

use interleaving::Event;
use lab_plan::{EdgeNo, JobNo, Plan};
use legal_steps::neighbour;
use std::alloc::Allocator;

/// The overtaking at a place of a list of events, counted from 0, where the job asks for the fork of the edge:
/// how many meals the job at the other end begins after that place and before the job's own next meal, or before
/// the end of the list if the job begins none.
///
/// In a list that is legal from an opening state it is 0 or 1; in any other list it may be more.
#[tactic(auto, using(crate::proofs::OvertakenOnce::overtaken_once))]
pub fn meals_after_ask<A: Allocator>(
    plan: &Plan<A>,
    events: &[Event],
    place: usize,
    job: JobNo,
    edge: EdgeNo,
) -> u64
    requires own { IsOwn plan.now job edge }
    requires asks { slice_get events.now place ≡ Some (AskFork job edge) }
    ensures count { result ≡ overtaking plan.now events.now place job edge }
    ensures at_most_one { (opening : State) → IsOpening plan.now opening → IsLegalFrom plan.now opening events.now → result ≤ 1 }
{
    meals_before(&events[place + 1..], neighbour(plan, job, edge), job)
}

/// How many meals the eater begins before the next meal of the job that waits.
fn meals_before(events: &[Event], eater: JobNo, waits: JobNo) -> u64
    ensures { result ≡ meals_of eater (before_meal waits events.now) }
{
    let mut meals = 0;
    for event in events {
        if begins_meal(event, waits) {
            return meals;
        }
        if begins_meal(event, eater) {
            meals += 1;
        }
    }
    meals
}

/// Whether the event begins a meal of the job.
fn begins_meal(event: &Event, job: JobNo) -> bool
    ensures { result ≡ is_sit job event.now }
{
    match *event {
        Event::Sit(eater) => eater == job,
        _ => false,
    }
}
