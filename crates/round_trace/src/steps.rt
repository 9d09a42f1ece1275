//! Steps of events.
ghost use Rattle.std.specs.Prelude.{◌≡◌};
ghost use Rattle.round_trace.specs.StepsOf.{step_of};

use legal_steps::{Event, Step};

/// The step of the event, as it is written in a list: a look or a glance without what it saw.
pub fn step_of(event: &Event) -> Step
    ensures { result ≡ step_of event.now }
{
    match *event {
        Event::Look(job, edge, _) => Step::Look(job, edge),
        Event::AskFork(job, edge) => Step::AskFork(job, edge),
        Event::GiveFork(job, edge) => Step::GiveFork(job, edge),
        Event::Soil(job, edge) => Step::Soil(job, edge),
        Event::AskBottles(job, edge, set) => Step::AskBottles(job, edge, set),
        Event::GiveBottles(job, edge, set) => Step::GiveBottles(job, edge, set),
        Event::Thirst(job) => Step::Thirst(job),
        Event::Hunger(job) => Step::Hunger(job),
        Event::Sit(job) => Step::Sit(job),
        Event::Leave(job) => Step::Leave(job),
        Event::Drink(job) => Step::Drink(job),
        Event::Reach(job) => Step::Reach(job),
        Event::Act(job) => Step::Act(job),
        Event::Quit(job) => Step::Quit(job),
        Event::Retire(job) => Step::Retire(job),
        Event::Glance(job, other, _) => Step::Glance(job, other),
        Event::Withdraw(job) => Step::Withdraw(job),
    }
}
