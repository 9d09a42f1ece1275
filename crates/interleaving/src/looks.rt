//! What a job sees: its edges, and how far others are.
ghost use Rattle.std.specs.Prelude.{◌≡◌, ◌↔◌, IsTrue};
ghost use Rattle.legal_steps.specs.declared.event.Event.TheVariants.{Look, Glance};
ghost use Rattle.legal_steps.specs.Legal.{May, after};

use crate::tables::Tables;
use lab_plan::{EdgeNo, JobNo};
use legal_steps::{EdgeState, JobState};
use std::alloc::Allocator;

impl<'a, A: Allocator> Tables<'a, A> {
    pub(crate) fn may_look(&self, job: JobNo, edge: EdgeNo, seen: EdgeState) -> bool
        ensures { IsTrue result ↔ May self.now.plan self.now.state (Look job edge seen) }
    {
        self.owns(job, edge) && self.edge(edge) == seen
    }

    pub(crate) fn look(&mut self, job: JobNo, edge: EdgeNo, seen: EdgeState)
        requires { May self.old.plan self.old.state (Look job edge seen) }
        ensures state { self.new.state ≡ after self.old.plan self.old.state (Look job edge seen) }
        ensures plan { self.new.plan ≡ self.old.plan }
    {
        let here = self.own_end(job, edge);
        let state = self.edge(edge);
        let mark = state.fork_mark(here, self.phase(job).dining);
        let marks = state.bottles_at(self.plan(), edge, here);
        self.set_marks(job, edge, mark, marks);
    }

    pub(crate) fn may_glance(&self, job: JobNo, other: JobNo, seen: JobState) -> bool
        ensures { IsTrue result ↔ May self.now.plan self.now.state (Glance job other seen) }
    {
        self.is_job(job) && self.is_job(other) && other != job && self.phase(other) == seen
    }
}
