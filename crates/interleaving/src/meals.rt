//! Hunger, forks and meals.
ghost use Rattle.std.specs.Prelude.{◌≡◌, ◌↔◌, IsTrue};
ghost use Rattle.legal_steps.specs.declared.event.Event.TheVariants.{AskFork, GiveFork, Soil, Hunger, Sit, Leave};
ghost use Rattle.legal_steps.specs.Legal.{May, after};

use crate::tables::Tables;
use lab_plan::{EdgeNo, JobNo};
use legal_steps::Dining;
use std::alloc::Allocator;

impl<'a, A: Allocator> Tables<'a, A> {
    pub(crate) fn may_ask_fork(&self, job: JobNo, edge: EdgeNo) -> bool
        ensures { IsTrue result ↔ May self.now.plan self.now.state (AskFork job edge) }
    {
        if !self.owns(job, edge) {
            return false;
        }
        let here = self.own_end(job, edge);
        self.edge(edge).wants_fork(here, self.phase(job).dining)
    }

    pub(crate) fn ask_fork(&mut self, job: JobNo, edge: EdgeNo)
        requires { May self.old.plan self.old.state (AskFork job edge) }
        ensures state { self.new.state ≡ after self.old.plan self.old.state (AskFork job edge) }
        ensures plan { self.new.plan ≡ self.old.plan }
    {
        self.set_edge(edge, self.edge(edge).fork_asked());
    }

    pub(crate) fn may_give_fork(&self, job: JobNo, edge: EdgeNo) -> bool
        ensures { IsTrue result ↔ May self.now.plan self.now.state (GiveFork job edge) }
    {
        if !self.owns(job, edge) {
            return false;
        }
        let here = self.own_end(job, edge);
        self.edge(edge).gives_fork(here, self.phase(job).dining)
    }

    pub(crate) fn give_fork(&mut self, job: JobNo, edge: EdgeNo)
        requires { May self.old.plan self.old.state (GiveFork job edge) }
        ensures state { self.new.state ≡ after self.old.plan self.old.state (GiveFork job edge) }
        ensures plan { self.new.plan ≡ self.old.plan }
    {
        // the job is one of the plan's, as this call ensures
        let _ = self.own_end(job, edge);
        self.set_edge(edge, self.edge(edge).fork_given());
        self.set_fork_mark(job, edge, false);
    }

    pub(crate) fn may_soil(&self, job: JobNo, edge: EdgeNo) -> bool
        ensures { IsTrue result ↔ May self.now.plan self.now.state (Soil job edge) }
    {
        if !self.owns(job, edge) {
            return false;
        }
        let here = self.own_end(job, edge);
        self.edge(edge).soils(here, self.phase(job).dining)
    }

    pub(crate) fn soil(&mut self, job: JobNo, edge: EdgeNo)
        requires { May self.old.plan self.old.state (Soil job edge) }
        ensures state { self.new.state ≡ after self.old.plan self.old.state (Soil job edge) }
        ensures plan { self.new.plan ≡ self.old.plan }
    {
        // the job is one of the plan's, as this call ensures
        let _ = self.own_end(job, edge);
        self.set_edge(edge, self.edge(edge).fork_soiled());
        self.set_fork_mark(job, edge, true);
    }

    pub(crate) fn may_hunger(&self, job: JobNo) -> bool
        ensures { IsTrue result ↔ May self.now.plan self.now.state (Hunger job) }
    {
        self.is_job(job) && self.phase(job).may_hunger()
    }

    pub(crate) fn hunger(&mut self, job: JobNo)
        requires { May self.old.plan self.old.state (Hunger job) }
        ensures state { self.new.state ≡ after self.old.plan self.old.state (Hunger job) }
        ensures plan { self.new.plan ≡ self.old.plan }
    {
        self.set_phase(job, self.phase(job).with_dining(Dining::Hungry));
    }

    pub(crate) fn may_sit(&self, job: JobNo) -> bool
        ensures { IsTrue result ↔ May self.now.plan self.now.state (Sit job) }
    {
        self.is_job(job) && self.phase(job).dining == Dining::Hungry && self.is_marked_all(job)
    }

    pub(crate) fn sit(&mut self, job: JobNo)
        requires { May self.old.plan self.old.state (Sit job) }
        ensures state { self.new.state ≡ after self.old.plan self.old.state (Sit job) }
        ensures plan { self.new.plan ≡ self.old.plan }
    {
        self.turn_to(job, Dining::Eating);
    }

    pub(crate) fn may_leave(&self, job: JobNo) -> bool
        ensures { IsTrue result ↔ May self.now.plan self.now.state (Leave job) }
    {
        self.is_job(job) && self.phase(job).may_leave() && self.is_marked_all(job)
    }

    pub(crate) fn leave(&mut self, job: JobNo)
        requires { May self.old.plan self.old.state (Leave job) }
        ensures state { self.new.state ≡ after self.old.plan self.old.state (Leave job) }
        ensures plan { self.new.plan ≡ self.old.plan }
    {
        self.turn_to(job, Dining::Thinking);
    }
}
