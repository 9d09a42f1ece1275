//! What a desk and a bench answer without a step.
ghost use Rattle.std.specs.Prelude.{◌≡◌, ◌↔◌, ◌<◌, ◌≤◌, length, IsTrue};
ghost use Rattle.lab_plan.specs.LabPlan.{edges, bottles};
ghost use Rattle.legal_steps.specs.State.{IsOwn, edge as edge_at, phase as phase_at, fork_mark as fork_mark_at};
ghost use Rattle.legal_steps.specs.State.{bottle_marks as bottle_marks_at, drinking as drinking_at};
ghost use Rattle.legal_steps.specs.declared.phase.Drinking.TheVariants.{Retired};
ghost use Rattle.legal_steps.specs.Run.{meals_of, sessions_done_of, withdrawn_of};
ghost use Rattle.edge_word.specs.Words.{IsOfBottles};
ghost use Rattle.edge_rule.specs.DeskView.{known, waited, noted, IsAtRest};
ghost use Rattle.turns.specs.Patience.{is_waiting};
ghost use Rattle.legal_steps.specs.Counting.{counts_of};
ghost use Rattle.edge_rule.specs.Knowing.{IsKnown};

use crate::bench::Bench;
use crate::desk::Desk;
use crate::words::number;
use edge_word::EdgeWord;
use lab_plan::{EdgeNo, JobNo, Plan};
use legal_steps::{Counts, Drinking, JobState};
use std::alloc::Allocator;

impl<'p, A: Allocator> Bench<'p, A> {
    /// The plan that the bench was opened with.
    pub fn plan(&self) -> &'p Plan<A>
        ensures { result.now ≡ self.now.plan }
    {
        self.plan
    }
}

impl<A: Allocator> Desk<A> {
    /// The desk's job.
    pub fn job(&self) -> JobNo
        ensures job { result ≡ self.now.job }
        ensures known { IsKnown self.now.plan (known self.now) self.now.job }
        ensures rest { IsAtRest self.now }
    {
        self.job
    }

    /// How far the job is.
    pub fn phase(&self) -> JobState
        ensures phase { result ≡ phase_at (known self.now) self.now.job }
        ensures known { IsKnown self.now.plan (known self.now) self.now.job }
    {
        self.phase
    }

    /// The word last seen on the edge, or written by the job since.
    pub fn seen(&self, edge: EdgeNo) -> EdgeWord
        requires { edge < length (edges self.now.plan) }
        ensures word { result ≡ edge_at (known self.now) edge }
        ensures fits { IsOfBottles (length (bottles self.now.plan edge)) result }
    {
        self.seen[number(edge)]
    }

    /// Whether the edge has a fork mark.
    pub fn fork_mark(&self, edge: EdgeNo) -> bool
        requires { edge < length (edges self.now.plan) }
        ensures { result ≡ fork_mark_at (known self.now) self.now.job edge }
    {
        self.fork_marks[number(edge)]
    }

    /// The marked bottles of the edge.
    pub fn bottle_marks(&self, edge: EdgeNo) -> u32
        requires { edge < length (edges self.now.plan) }
        ensures { result ≡ bottle_marks_at (known self.now) self.now.job edge }
    {
        self.bottle_marks[number(edge)]
    }
}

fn is_thirsty(drinking: Drinking) -> bool
    ensures { result ≡ is_waiting drinking }
{
    drinking == Drinking::Thirsty
}

impl<A: Allocator> Desk<A> {
    /// What the job has done.
    pub fn counts(&self) -> Counts
        ensures { result ≡ counts_of self.now.job self.now.deeds }
    {
        self.counts
    }

    /// How many meals the job has had.
    pub fn meals(&self) -> u32
        ensures { result ≡ meals_of self.now.job self.now.deeds }
    {
        self.counts().meals
    }

    /// How many sessions the job has ended.
    pub fn sessions_done(&self) -> u32
        ensures { result ≡ sessions_done_of self.now.job self.now.deeds }
    {
        self.counts().sessions_done
    }

    /// How many sessions the job has given up.
    pub fn withdrawn(&self) -> u32
        ensures { result ≡ withdrawn_of self.now.job self.now.deeds }
    {
        self.counts().withdrawn
    }

    /// Whether the job has retired.
    pub fn retired(&self) -> bool
        ensures { IsTrue result ↔ (drinking_at (known self.now) self.now.job ≡ Retired) }
    {
        self.phase().drinking == Drinking::Retired
    }

    /// The turns that were noted, up to the largest number.
    pub fn turns(&self) -> u64
        ensures { result ≡ self.now.clock.turns }
    {
        self.clock.turns
    }

    /// In how many of its turns the job's session was thirsty at the start and at the end. It is 0 after each Thirst.
    pub fn waited(&self) -> u32
        ensures { result ≡ waited self.now }
    {
        if self.clock.session == self.phase.session {
            self.clock.waited
        } else {
            0
        }
    }

    /// Notes a turn, at whose start the job was thirsty or not.
    pub fn note_turn(&mut self, thirsty_at_start: bool)
        ensures { self.new ≡ noted self.old thirsty_at_start }
    {
        let waiting = thirsty_at_start && is_thirsty(self.phase.drinking);
        self.clock.note(self.phase.session, waiting);
    }
}
