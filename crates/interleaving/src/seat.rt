//! One job's seat: how far it is and its marks, by edge number.
ghost use Rattle.std.specs.Prelude.{◌≡◌, ◌<◌, length, slice_index_or, false, replicate, IfOk};
ghost use Rattle.legal_steps.specs.State.{idle_phase};
ghost use Rattle.legal_steps.specs.Legal.{with_fork_mark, with_bottle_marks, turned_to};

use legal_steps::{Dining, JobState};
use std::alloc::{AllocError, Allocator, Global};
use std::marker::Model;

#[derive(Drop)]
pub(crate) struct JobSeat<A: Allocator = Global> {
    phase: JobState,
    fork_marks: Vec<bool, A>,
    bottle_marks: Vec<u32, A>,
}

impl<A: Allocator> Model for JobSeat<A> {
    ghost use Rattle.legal_steps.specs.State.{Seat};

    ghost Value = { Seat };

    ghost view = { λ r. record { phase = r.phase; fork_marks = r.fork_marks.items; bottle_marks = r.bottle_marks.items } };
}

impl<A: Allocator + Copy> JobSeat<A> {
    /// The seat of a job before its first event, with marks for this many edges.
    pub(crate) fn idle(alloc: A, edges: usize) -> Result<JobSeat<A>, AllocError>
        ensures { IfOk result (λ seat. seat ≡ record { phase = idle_phase; fork_marks = replicate edges false; bottle_marks = replicate edges 0 }) }
    {
        Ok(JobSeat {
            phase: JobState::IDLE,
            fork_marks: vec![in alloc; false; edges]?,
            bottle_marks: vec![in alloc; 0; edges]?,
        })
    }
}

impl<A: Allocator> JobSeat<A> {
    pub(crate) fn phase(&self) -> JobState
        ensures { result ≡ self.now.phase }
    {
        self.phase
    }

    pub(crate) fn fork_mark(&self, edge: usize) -> bool
        requires { edge < length self.now.fork_marks }
        ensures { result ≡ slice_index_or self.now.fork_marks edge false }
    {
        self.fork_marks[edge]
    }

    pub(crate) fn bottle_marks(&self, edge: usize) -> u32
        requires { edge < length self.now.bottle_marks }
        ensures { result ≡ slice_index_or self.now.bottle_marks edge 0 }
    {
        self.bottle_marks[edge]
    }

    pub(crate) fn fork_mark_list(&self) -> &[bool]
        ensures { result.now ≡ self.now.fork_marks }
    {
        self.fork_marks.as_slice()
    }

    pub(crate) fn bottle_mark_list(&self) -> &[u32]
        ensures { result.now ≡ self.now.bottle_marks }
    {
        self.bottle_marks.as_slice()
    }

    pub(crate) fn set_phase(&mut self, phase: JobState)
        ensures { self.new ≡ record self.old { phase = phase } }
    {
        self.phase = phase;
    }

    pub(crate) fn set_fork_mark(&mut self, edge: usize, mark: bool)
        requires { edge < length self.old.fork_marks }
        ensures { self.new ≡ with_fork_mark self.old edge mark }
    {
        self.fork_marks[edge] = mark;
    }

    pub(crate) fn set_bottle_marks(&mut self, edge: usize, marks: u32)
        requires { edge < length self.old.bottle_marks }
        ensures { self.new ≡ with_bottle_marks self.old edge marks }
    {
        self.bottle_marks[edge] = marks;
    }

    pub(crate) fn set_marks(&mut self, edge: usize, mark: bool, marks: u32)
        requires fork { edge < length self.old.fork_marks }
        requires bottles { edge < length self.old.bottle_marks }
        ensures { self.new ≡ with_bottle_marks (with_fork_mark self.old edge mark) edge marks }
    {
        self.fork_marks[edge] = mark;
        self.bottle_marks[edge] = marks;
    }

    /// Dines so, without any fork mark.
    pub(crate) fn turn_to(&mut self, dining: Dining)
        ensures { self.new ≡ turned_to self.old dining }
    {
        self.phase.dining = dining;
        self.fork_marks.fill(false);
    }
}
