//! One event of any kind.
ghost use Rattle.std.specs.Prelude.{◌≡◌, ◌↔◌, IsTrue};
ghost use Rattle.legal_steps.specs.Legal.{May, after};
ghost use Rattle.interleaving.specs.Step.{TakesEntry};

use crate::tables::Tables;
use legal_steps::Event;
use std::alloc::Allocator;

impl<'a, A: Allocator> Tables<'a, A> {
    pub(crate) fn enabled(&self, event: &Event) -> bool
        ensures { IsTrue result ↔ May self.now.plan self.now.state event.now }
    {
        match *event {
            Event::Look(job, edge, seen) => self.may_look(job, edge, seen),
            Event::AskFork(job, edge) => self.may_ask_fork(job, edge),
            Event::GiveFork(job, edge) => self.may_give_fork(job, edge),
            Event::Soil(job, edge) => self.may_soil(job, edge),
            Event::AskBottles(job, edge, set) => self.may_ask_bottles(job, edge, set),
            Event::GiveBottles(job, edge, set) => self.may_give_bottles(job, edge, set),
            Event::Thirst(job) => self.may_thirst(job),
            Event::Hunger(job) => self.may_hunger(job),
            Event::Sit(job) => self.may_sit(job),
            Event::Leave(job) => self.may_leave(job),
            Event::Drink(job) => self.may_drink(job),
            Event::Reach(job) => self.may_reach(job),
            Event::Act(job) => self.may_act(job),
            Event::Quit(job) => self.may_quit(job),
            Event::Retire(job) => self.may_retire(job),
            Event::Glance(job, other, seen) => self.may_glance(job, other, seen),
            Event::Withdraw(job) => self.may_withdraw(job),
        }
    }

    /// The effect of a legal event.
    pub(crate) fn apply(&mut self, event: &Event)
        requires may { May self.old.plan self.old.state event.now }
        requires takes { TakesEntry self.old.plan self.old.state event.now }
        ensures state { self.new.state ≡ after self.old.plan self.old.state event.now }
        ensures plan { self.new.plan ≡ self.old.plan }
    {
        match *event {
            Event::Look(job, edge, seen) => self.look(job, edge, seen),
            Event::AskFork(job, edge) => self.ask_fork(job, edge),
            Event::GiveFork(job, edge) => self.give_fork(job, edge),
            Event::Soil(job, edge) => self.soil(job, edge),
            Event::AskBottles(job, edge, set) => self.ask_bottles(job, edge, set),
            Event::GiveBottles(job, edge, set) => self.give_bottles(job, edge, set),
            Event::Thirst(job) => self.thirst(job),
            Event::Hunger(job) => self.hunger(job),
            Event::Sit(job) => self.sit(job),
            Event::Leave(job) => self.leave(job),
            Event::Drink(job) => self.drink(job),
            Event::Reach(job) => self.reach(job),
            Event::Act(job) => self.act(job),
            Event::Quit(job) => self.quit(job),
            Event::Retire(job) => self.retire(job),
            Event::Glance(_, _, _) => (),
            Event::Withdraw(job) => self.withdraw(job),
        }
    }
}
