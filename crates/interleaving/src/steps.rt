//! Steps as they are written in a list: what a look or a glance sees is what is there.
ghost use Rattle.std.specs.Prelude.{◌≡◌, map};
ghost use Rattle.std.specs.List.{All};
ghost use Rattle.legal_steps.specs.Steps.{IsStepOf, event_of, step_events};
ghost use Rattle.interleaving.specs.World.{Replays};

use crate::world::World;
use legal_steps::{Event, NotLegal, Step, StepLine};
use std::alloc::Allocator;

impl<'a, A: Allocator> World<'a, A> {
    /// The event of the step, with what a look or a glance sees now.
    pub fn event_of(&self, step: &Step) -> Event
        requires { IsStepOf self.now.plan step.now }
        ensures { result ≡ event_of self.now.state step.now }
    {
        match *step {
            Step::Look(job, edge) => Event::Look(job, edge, self.edge(edge)),
            Step::AskFork(job, edge) => Event::AskFork(job, edge),
            Step::GiveFork(job, edge) => Event::GiveFork(job, edge),
            Step::Soil(job, edge) => Event::Soil(job, edge),
            Step::AskBottles(job, edge, set) => Event::AskBottles(job, edge, set),
            Step::GiveBottles(job, edge, set) => Event::GiveBottles(job, edge, set),
            Step::Thirst(job) => Event::Thirst(job),
            Step::Hunger(job) => Event::Hunger(job),
            Step::Sit(job) => Event::Sit(job),
            Step::Leave(job) => Event::Leave(job),
            Step::Drink(job) => Event::Drink(job),
            Step::Reach(job) => Event::Reach(job),
            Step::Act(job) => Event::Act(job),
            Step::Quit(job) => Event::Quit(job),
            Step::Retire(job) => Event::Retire(job),
            Step::Glance(job, other) => Event::Glance(job, other, self.job(other)),
            Step::Withdraw(job) => Event::Withdraw(job),
        }
    }

    /// The events of the steps one after another, up to the first that isn't legal: its place from 0 is
    /// the error's, and the world stands before it.
    pub fn replay_steps(&mut self, steps: &[StepLine]) -> Result<usize, (usize, NotLegal)>
        requires { All (λ line. IsStepOf self.old.plan line.step) steps.now }
        ensures { Replays self.old (step_events self.old.plan self.old.state (map (λ line. line.step) steps.now)) result self.new }
    {
        let mut done = 0;
        for line in steps {
            let event = self.event_of(&line.step);
            if let Err(refused) = self.step(event) {
                return Err((done, refused));
            }
            done += 1;
        }
        Ok(done)
    }
}
