//! What a job needs: marks on its edges, and bottles.
ghost use Rattle.std.specs.Prelude.{◌≡◌, ℕ, ◌<◌, ◌≤◌, ◌↔◌, IsTrue, length};
ghost use Rattle.lab_plan.specs.Limits.{most_bottles};
ghost use Rattle.lab_plan.specs.LabPlan.{edges, edges_of, bottles};
ghost use Rattle.legal_steps.specs.State.{IsOwn, IsDrinking, Has, phase as phase_at};
ghost use Rattle.legal_steps.specs.Legal.{IsJob, IsMarkedAll, HasNeeded, HasNeededAt, Needs, instrument_of};

use crate::tables::Tables;
use lab_plan::{EdgeNo, JobNo};
use legal_steps::has;
use std::alloc::Allocator;

impl<'a, A: Allocator> Tables<'a, A> {
    pub(crate) fn own_edges(&self, job: JobNo) -> &[EdgeNo]
        requires { IsJob self.now.plan job }
        ensures { result.now ≡ edges_of self.now.plan job }
    {
        self.plan().edges_of(job)
    }

    /// Whether the job has a fork mark on every edge of its own.
    pub(crate) fn is_marked_all(&self, job: JobNo) -> bool
        requires { IsJob self.now.plan job }
        ensures { IsTrue result ↔ IsMarkedAll self.now.plan self.now.state job }
    {
        let own = self.own_edges(job);
        for edge in own {
            if !self.fork_mark(job, *edge) {
                return false;
            }
        }
        true
    }

    pub(crate) fn bottles(&self, edge: EdgeNo) -> u32
        requires { edge < length (edges self.now.plan) }
        ensures len { result ≡ length (bottles self.now.plan edge) }
        ensures few { result ≤ most_bottles }
    {
        self.plan().bottles(edge)
    }

    /// The bottles of the edge that the job needs: none if it is in no session.
    #[tactic(auto, unfolding(legal_steps::specs::State::Has), using(legal_steps::proofs::BottleSets::has_none))]
    pub(crate) fn needed_bottles(&self, job: JobNo, edge: EdgeNo) -> u32
        requires is_job { IsJob self.now.plan job }
        requires is_edge { edge < length (edges self.now.plan) }
        ensures { (k : ℕ) → k < length (bottles self.now.plan edge)
            → Has result k ↔ Needs self.now.plan self.now.state job (instrument_of self.now.plan edge k) }
    {
        let phase = self.phase(job);
        if !phase.is_in_session() {
            return 0;
        }
        self.plan().needed_bottles(job, phase.session, edge)
    }

    /// Whether each needed bottle of the edge is marked.
    pub(crate) fn has_needed_at(&self, job: JobNo, edge: EdgeNo) -> bool
        requires is_job { IsJob self.now.plan job }
        requires is_edge { edge < length (edges self.now.plan) }
        ensures { IsTrue result ↔ HasNeededAt self.now.plan self.now.state job edge }
    {
        let needed = self.needed_bottles(job, edge);
        let marks = self.bottle_marks(job, edge);
        for bottle in 0..self.bottles(edge) {
            if has(needed, bottle) && !has(marks, bottle) {
                return false;
            }
        }
        true
    }

    /// Whether each bottle that the job needs is marked, on all of its edges.
    pub(crate) fn has_needed(&self, job: JobNo) -> bool
        requires { IsJob self.now.plan job }
        ensures { IsTrue result ↔ HasNeeded self.now.plan self.now.state job }
    {
        let own = self.own_edges(job);
        for edge in own {
            if !self.has_needed_at(job, *edge) {
                return false;
            }
        }
        true
    }

    /// Whether the job drinks or reaches.
    pub(crate) fn is_drinking(&self, job: JobNo) -> bool
        requires { IsJob self.now.plan job }
        ensures { IsTrue result ↔ IsDrinking (phase_at self.now.state job) }
    {
        self.phase(job).is_drinking()
    }
}
