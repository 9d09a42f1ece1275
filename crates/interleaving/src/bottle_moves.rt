//! Requests for bottles, and bottles that are given.
ghost use Rattle.std.specs.Prelude.{◌≡◌, ◌⊎◌, ℕ, ◌<◌, ◌↔◌, IsTrue, length};
ghost use Rattle.lab_plan.specs.LabPlan.{edges, bottles};
ghost use Rattle.legal_steps.specs.declared.event.Event.TheVariants.{AskBottles, GiveBottles};
ghost use Rattle.legal_steps.specs.State.{IsOwn, IsOfEdge, IsDrinking, Has, fork, phase as phase_at};
ghost use Rattle.legal_steps.specs.Legal.{IsJob, IsBottleSet, MayAskBottle, MayGiveBottle, Needs, Here, instrument_of, May, after};

use crate::tables::Tables;
use lab_plan::{EdgeNo, JobNo};
use legal_steps::{Drinking, bottle_end, has};
use std::alloc::Allocator;

impl<'a, A: Allocator> Tables<'a, A> {
    /// Whether this is a nonempty set of bottles of the edge.
    pub(crate) fn is_bottle_set(&self, edge: EdgeNo, set: u32) -> bool
        requires { edge < length (edges self.now.plan) }
        ensures { IsTrue result ↔ IsBottleSet self.now.plan edge set }
    {
        set != 0 && set < 1u32 << self.bottles(edge)
    }

    /// Whether the job may ask for each bottle of the set.
    pub(crate) fn may_ask_all(&self, job: JobNo, edge: EdgeNo, set: u32) -> bool
        requires own { IsOwn self.now.plan job edge }
        requires set { IsOfEdge self.now.plan edge set }
        ensures { IsTrue result ↔ ((k : ℕ) → Has set k → MayAskBottle self.now.plan self.now.state job edge k) }
    {
        let here = self.own_end(job, edge);
        let state = self.edge(edge);
        let needed = self.needed_bottles(job, edge);
        for bottle in 0..self.bottles(edge) {
            let not_asked = !has(needed, bottle)
                || bottle_end(state.bottles, bottle) == here
                || bottle_end(state.bottle_tokens, bottle) != here;
            if has(set, bottle) && not_asked {
                return false;
            }
        }
        true
    }

    pub(crate) fn may_ask_bottles(&self, job: JobNo, edge: EdgeNo, set: u32) -> bool
        ensures { IsTrue result ↔ May self.now.plan self.now.state (AskBottles job edge set) }
    {
        self.owns(job, edge)
            && self.phase(job).drinking == Drinking::Thirsty
            && self.is_bottle_set(edge, set)
            && self.may_ask_all(job, edge, set)
    }

    pub(crate) fn ask_bottles(&mut self, job: JobNo, edge: EdgeNo, set: u32)
        requires { May self.old.plan self.old.state (AskBottles job edge set) }
        ensures state { self.new.state ≡ after self.old.plan self.old.state (AskBottles job edge set) }
        ensures plan { self.new.plan ≡ self.old.plan }
    {
        self.set_edge(edge, self.edge(edge).bottles_asked(set));
    }

    /// The bottles of the edge that the job keeps: those that it needs, while it drinks or has the fork.
    #[tactic(auto, using(legal_steps::proofs::BottleSets::has_none))]
    fn kept_bottles(&self, job: JobNo, edge: EdgeNo) -> u32
        requires { IsOwn self.now.plan job edge }
        ensures { (k : ℕ) → k < length (bottles self.now.plan edge)
            → Has result k ↔ (Needs self.now.plan self.now.state job (instrument_of self.now.plan edge k)
            × (IsDrinking (phase_at self.now.state job) ⊎ Here self.now.plan job edge (fork self.now.state edge))) }
    {
        let fork_here = self.edge(edge).fork == self.own_end(job, edge);
        if self.is_drinking(job) || fork_here {
            self.needed_bottles(job, edge)
        } else {
            0
        }
    }

    /// Whether the job may give each bottle of the set.
    pub(crate) fn may_give_all(&self, job: JobNo, edge: EdgeNo, set: u32) -> bool
        requires own { IsOwn self.now.plan job edge }
        requires set { IsOfEdge self.now.plan edge set }
        ensures { IsTrue result ↔ ((k : ℕ) → Has set k → MayGiveBottle self.now.plan self.now.state job edge k) }
    {
        let here = self.own_end(job, edge);
        let state = self.edge(edge);
        let kept = self.kept_bottles(job, edge);
        for bottle in 0..self.bottles(edge) {
            let stays = has(kept, bottle)
                || bottle_end(state.bottles, bottle) != here
                || bottle_end(state.bottle_tokens, bottle) != here;
            if has(set, bottle) && stays {
                return false;
            }
        }
        true
    }

    pub(crate) fn may_give_bottles(&self, job: JobNo, edge: EdgeNo, set: u32) -> bool
        ensures { IsTrue result ↔ May self.now.plan self.now.state (GiveBottles job edge set) }
    {
        self.owns(job, edge) && self.is_bottle_set(edge, set) && self.may_give_all(job, edge, set)
    }

    pub(crate) fn give_bottles(&mut self, job: JobNo, edge: EdgeNo, set: u32)
        requires { May self.old.plan self.old.state (GiveBottles job edge set) }
        ensures state { self.new.state ≡ after self.old.plan self.old.state (GiveBottles job edge set) }
        ensures plan { self.new.plan ≡ self.old.plan }
    {
        let marks = self.bottle_marks(job, edge);
        self.set_edge(edge, self.edge(edge).bottles_given(set));
        self.set_bottle_marks(job, edge, marks ^ (marks & set));
    }
}
