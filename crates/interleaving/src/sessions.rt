//! Sessions: thirst, commands that are reached for, and the ends of sessions.
ghost use Rattle.std.specs.Prelude.{◌≡◌, ◌↔◌, IsTrue};
ghost use Rattle.legal_steps.specs.declared.event.Event.TheVariants.{Thirst, Drink, Reach, Quit, Retire, Withdraw};
ghost use Rattle.legal_steps.specs.Legal.{May, after};

use crate::tables::Tables;
use lab_plan::JobNo;
use legal_steps::Drinking;
use std::alloc::Allocator;

impl<'a, A: Allocator> Tables<'a, A> {
    pub(crate) fn may_thirst(&self, job: JobNo) -> bool
        ensures { IsTrue result ↔ May self.now.plan self.now.state (Thirst job) }
    {
        self.is_job(job) && self.phase(job).may_thirst(self.plan(), job)
    }

    pub(crate) fn thirst(&mut self, job: JobNo)
        requires { May self.old.plan self.old.state (Thirst job) }
        ensures state { self.new.state ≡ after self.old.plan self.old.state (Thirst job) }
        ensures plan { self.new.plan ≡ self.old.plan }
    {
        // no job has more than 1000 sessions, as this call ensures: so the next number is in range
        let _ = self.plan().sessions(job);
        self.set_phase(job, self.phase(job).in_next_session());
    }

    pub(crate) fn may_drink(&self, job: JobNo) -> bool
        ensures { IsTrue result ↔ May self.now.plan self.now.state (Drink job) }
    {
        self.is_job(job) && self.phase(job).drinking == Drinking::Thirsty && self.has_needed(job)
    }

    pub(crate) fn drink(&mut self, job: JobNo)
        requires { May self.old.plan self.old.state (Drink job) }
        ensures state { self.new.state ≡ after self.old.plan self.old.state (Drink job) }
        ensures plan { self.new.plan ≡ self.old.plan }
    {
        self.set_phase(job, self.phase(job).with_drinking(Drinking::Drinking));
    }

    pub(crate) fn may_reach(&self, job: JobNo) -> bool
        ensures { IsTrue result ↔ May self.now.plan self.now.state (Reach job) }
    {
        self.is_job(job) && self.phase(job).may_reach(self.plan(), job)
    }

    pub(crate) fn reach(&mut self, job: JobNo)
        requires { May self.old.plan self.old.state (Reach job) }
        ensures state { self.new.state ≡ after self.old.plan self.old.state (Reach job) }
        ensures plan { self.new.plan ≡ self.old.plan }
    {
        self.set_phase(job, self.phase(job).with_drinking(Drinking::Reaching));
    }

    pub(crate) fn may_quit(&self, job: JobNo) -> bool
        ensures { IsTrue result ↔ May self.now.plan self.now.state (Quit job) }
    {
        self.is_job(job) && self.phase(job).may_quit(self.plan(), job)
    }

    pub(crate) fn quit(&mut self, job: JobNo)
        requires { May self.old.plan self.old.state (Quit job) }
        ensures state { self.new.state ≡ after self.old.plan self.old.state (Quit job) }
        ensures plan { self.new.plan ≡ self.old.plan }
    {
        self.set_phase(job, self.phase(job).out_of_session());
    }

    pub(crate) fn may_retire(&self, job: JobNo) -> bool
        ensures { IsTrue result ↔ May self.now.plan self.now.state (Retire job) }
    {
        self.is_job(job) && self.phase(job).may_retire(self.plan(), job)
    }

    pub(crate) fn retire(&mut self, job: JobNo)
        requires { May self.old.plan self.old.state (Retire job) }
        ensures state { self.new.state ≡ after self.old.plan self.old.state (Retire job) }
        ensures plan { self.new.plan ≡ self.old.plan }
    {
        self.set_phase(job, self.phase(job).with_drinking(Drinking::Retired));
    }

    pub(crate) fn may_withdraw(&self, job: JobNo) -> bool
        ensures { IsTrue result ↔ May self.now.plan self.now.state (Withdraw job) }
    {
        self.is_job(job) && self.phase(job).may_withdraw(self.plan(), job)
    }

    pub(crate) fn withdraw(&mut self, job: JobNo)
        requires { May self.old.plan self.old.state (Withdraw job) }
        ensures state { self.new.state ≡ after self.old.plan self.old.state (Withdraw job) }
        ensures plan { self.new.plan ≡ self.old.plan }
    {
        self.set_phase(job, self.phase(job).out_of_session());
    }
}
