//! The tables of a world: a plan and a state of its bench that fits it. Every write keeps that.
ghost use Rattle.std.specs.Prelude.{◌≡◌, ℕ, ◌<◌, ◌≤◌, ◌↔◌, IsTrue, length, IfOk, OnOk};
ghost use Rattle.lab_plan.specs.LabPlan.{edges};
ghost use Rattle.legal_steps.specs.State.{IsOwn, IsOfEdge, end_of, edge as edge_at, phase as phase_at, seat};
ghost use Rattle.legal_steps.specs.State.{fork_mark as fork_mark_at, bottle_marks as bottle_marks_at, log as log_at};
ghost use Rattle.legal_steps.specs.Legal.{IsJob, with_edge, with_seat, with_phase, with_fork_mark, with_bottle_marks, turned_to, with_entry};
ghost use Rattle.legal_steps.specs.Fitting.{Fits, IsPhaseOf};
ghost use Rattle.legal_steps.specs.Opening.{AreChoices, opening_of, the_opening};
ghost use Rattle.lab_plan.specs.IsPlan.{IsPlan};
ghost use Rattle.lab_plan.specs.Limits.{most_commands};
ghost use Rattle.legal_steps.specs.WholeLogs.{log_with_room};
ghost use Rattle.interleaving.specs.Rooms.{log_at as log_in};
ghost use Rattle.lab_plan.specs.Longer.{session_of, IsOfItsOwn};
ghost use Rattle.interleaving.specs.Adding.{PlanAdds};
ghost use Rattle.instrument_log.specs.Dial.{turned, dial};
ghost use Rattle.instrument_log.specs.Entries.{IsWithinLimits};
ghost use Rattle.instrument_log.specs.InstrumentLog.{MayAppend};

use crate::add_refusal::AddRefusal;
use crate::kept_plan::KeptPlan;
use crate::opening_tables::{chosen_edges, idle_seats, lower_choices};
use crate::rooms::{give_back, make_rooms};
use crate::seat::JobSeat;
use instrument_log::{Entry, InstrumentLog};
use lab_plan::{EdgeNo, InstrumentNo, JobNo, Plan, Verb};
use legal_steps::{Dining, EdgeState, End, EndChoice, JobState};
use plan_logs::{empty_logs, push};
use std::alloc::{AllocError, Allocator, Global};
use std::marker::Model;

#[derive(Drop)]
pub(crate) struct Tables<'a, A: Allocator = Global> {
    plan: KeptPlan<'a, A>,
    edges: Vec<EdgeState, A>,
    seats: Vec<JobSeat<A>, A>,
    logs: Vec<InstrumentLog<A>, A>,
}

impl<'a, A: Allocator> Model for Tables<'a, A> {
    ghost use Rattle.std.specs.Prelude.{◌≡◌, ℕ, ◌<◌, map, length};
    ghost use Rattle.instrument_log.specs.InstrumentLog.{LogView};
    ghost use Rattle.legal_steps.specs.State.{Setting};
    ghost use Rattle.legal_steps.specs.Fitting.{Fits};
    ghost use Rattle.lab_plan.specs.IsPlan.{IsPlan};
    ghost use Rattle.interleaving.specs.Rooms.{HasRooms};

    ghost Value = { Setting };

    ghost view = { λ w. record {
      plan = w.plan;
      state = record { edges = w.edges.items; seats = w.seats.items; logs = map (λ (l : LogView). l.entries) w.logs.items };
    } };

    ghost invariant = { λ w. record {
      is_plan : IsPlan w.plan;
      fits : Fits w.plan (record { edges = w.edges.items; seats = w.seats.items; logs = map (λ (l : LogView). l.entries) w.logs.items });
      rooms : HasRooms w.plan w.logs.items;
    } };
}

impl<'a, A: Allocator + Copy> Tables<'a, A> {
    /// The tables of the opening state that the choices give.
    pub(crate) fn opened(
        alloc: A,
        plan: KeptPlan<'a, A>,
        choices: &[EndChoice],
    ) -> Result<Tables<'a, A>, AllocError>
        requires { AreChoices plan choices.now }
        ensures { IfOk result (λ tables. tables ≡ record { plan = plan.entry; state = opening_of plan.entry choices.now }) }
    {
        let seen = plan.get();
        let edges = chosen_edges(alloc, seen, choices)?;
        let seats = idle_seats(alloc, seen.jobs(), seen.edges() as usize)?;
        let logs = empty_logs(alloc, seen)?;
        Ok(Tables {
            plan,
            edges,
            seats,
            logs,
        })
    }

    /// The tables of the initial state.
    pub(crate) fn opening(alloc: A, plan: KeptPlan<'a, A>) -> Result<Tables<'a, A>, AllocError>
        ensures { IfOk result (λ tables. tables ≡ record { plan = plan.entry; state = the_opening plan.entry }) }
    {
        let choices = lower_choices(alloc, plan.get().edges() as usize)?;
        Tables::opened(alloc, plan, &choices)
    }
}

impl<'a, A: Allocator> Tables<'a, A> {
    pub(crate) fn plan(&self) -> &Plan<A>
        ensures plan { result.now ≡ self.now.plan }
        ensures fits { Fits self.now.plan self.now.state }
        ensures is_plan { IsPlan self.now.plan }
    {
        self.plan.get()
    }

    pub(crate) fn is_job(&self, job: JobNo) -> bool
        ensures { IsTrue result ↔ IsJob self.now.plan job }
    {
        (job.0 as usize) < self.seats.len()
    }

    /// Whether the edge is one of the job's.
    pub(crate) fn owns(&self, job: JobNo, edge: EdgeNo) -> bool
        ensures owns { IsTrue result ↔ IsOwn self.now.plan job edge }
        ensures is_job { IsOwn self.now.plan job edge → IsJob self.now.plan job }
    {
        let plan = self.plan.get();
        if edge.0 >= plan.edges() {
            return false;
        }
        let (lower, higher) = plan.ends(edge);
        lower == job || higher == job
    }

    /// The job's own end of the edge.
    pub(crate) fn own_end(&self, job: JobNo, edge: EdgeNo) -> End
        requires { IsOwn self.now.plan job edge }
        ensures end { result ≡ end_of self.now.plan job edge }
        ensures is_job { IsJob self.now.plan job }
    {
        End::of(self.plan.get(), job, edge)
    }

    pub(crate) fn edge(&self, edge: EdgeNo) -> EdgeState
        requires { edge < length (edges self.now.plan) }
        ensures edge { result ≡ edge_at self.now.state edge }
        ensures bottles { IsOfEdge self.now.plan edge result.bottles }
        ensures tokens { IsOfEdge self.now.plan edge result.bottle_tokens }
    {
        self.edges[edge.0 as usize]
    }

    pub(crate) fn phase(&self, job: JobNo) -> JobState
        requires { IsJob self.now.plan job }
        ensures phase { result ≡ phase_at self.now.state job }
        ensures fits { IsPhaseOf self.now.plan job result }
        ensures few { result.position ≤ most_commands }
    {
        self.seats[job.0 as usize].phase()
    }
}

impl<'a, A: Allocator> Tables<'a, A> {
    pub(crate) fn set_edge(&mut self, edge: EdgeNo, state: EdgeState)
        requires is_edge { edge < length (edges self.old.plan) }
        requires bottles { IsOfEdge self.old.plan edge state.bottles }
        requires tokens { IsOfEdge self.old.plan edge state.bottle_tokens }
        ensures state { self.new.state ≡ with_edge self.old.state edge state }
        ensures plan { self.new.plan ≡ self.old.plan }
    {
        self.edges[edge.0 as usize] = state;
    }

    #[tactic(auto, using(legal_steps::proofs::FitsWrites::fits_with_seat, crate::proofs::FitLemmas::seat_with_phase))]
    pub(crate) fn set_phase(&mut self, job: JobNo, phase: JobState)
        requires is_job { IsJob self.old.plan job }
        requires fits { IsPhaseOf self.old.plan job phase }
        ensures state { self.new.state ≡ with_phase self.old.state job phase }
        ensures plan { self.new.plan ≡ self.old.plan }
    {
        let seat = &mut self.seats[job.0 as usize];
        seat.set_phase(phase);
    }

    pub(crate) fn set_fork_mark(&mut self, job: JobNo, edge: EdgeNo, mark: bool)
        requires is_job { IsJob self.old.plan job }
        requires is_edge { edge < length (edges self.old.plan) }
        ensures state { self.new.state ≡ with_seat self.old.state job (with_fork_mark (seat self.old.state job) edge mark) }
        ensures plan { self.new.plan ≡ self.old.plan }
    {
        let seat = &mut self.seats[job.0 as usize];
        seat.set_fork_mark(edge.0 as usize, mark);
    }

    pub(crate) fn set_bottle_marks(&mut self, job: JobNo, edge: EdgeNo, marks: u32)
        requires is_job { IsJob self.old.plan job }
        requires is_edge { edge < length (edges self.old.plan) }
        requires of_edge { IsOfEdge self.old.plan edge marks }
        ensures state { self.new.state ≡ with_seat self.old.state job (with_bottle_marks (seat self.old.state job) edge marks) }
        ensures plan { self.new.plan ≡ self.old.plan }
    {
        let seat = &mut self.seats[job.0 as usize];
        seat.set_bottle_marks(edge.0 as usize, marks);
    }

    /// Both marks of the job at an edge.
    pub(crate) fn set_marks(&mut self, job: JobNo, edge: EdgeNo, mark: bool, marks: u32)
        requires is_job { IsJob self.old.plan job }
        requires is_edge { edge < length (edges self.old.plan) }
        requires of_edge { IsOfEdge self.old.plan edge marks }
        ensures state { self.new.state ≡ with_seat self.old.state job (with_bottle_marks (with_fork_mark (seat self.old.state job) edge mark) edge marks) }
        ensures plan { self.new.plan ≡ self.old.plan }
    {
        let seat = &mut self.seats[job.0 as usize];
        seat.set_marks(edge.0 as usize, mark, marks);
    }

    /// The job dines so, without any fork mark.
    #[tactic(auto, using(legal_steps::proofs::FitsWrites::fits_with_seat, legal_steps::proofs::FitsWrites::seat_fits_turned))]
    pub(crate) fn turn_to(&mut self, job: JobNo, dining: Dining)
        requires { IsJob self.old.plan job }
        ensures state { self.new.state ≡ with_seat self.old.state job (turned_to (seat self.old.state job) dining) }
        ensures plan { self.new.plan ≡ self.old.plan }
    {
        let seat = &mut self.seats[job.0 as usize];
        seat.turn_to(dining);
    }

    /// Whether the job has a fork mark for one of its edges.
    pub(crate) fn fork_mark(&self, job: JobNo, edge: EdgeNo) -> bool
        requires is_job { IsJob self.now.plan job }
        requires is_edge { edge < length (edges self.now.plan) }
        ensures { result ≡ fork_mark_at self.now.state job edge }
    {
        self.seats[job.0 as usize].fork_mark(edge.0 as usize)
    }

    /// The job's bottle marks for one of its edges.
    pub(crate) fn bottle_marks(&self, job: JobNo, edge: EdgeNo) -> u32
        requires is_job { IsJob self.now.plan job }
        requires is_edge { edge < length (edges self.now.plan) }
        ensures marks { result ≡ bottle_marks_at self.now.state job edge }
        ensures of_edge { IsOfEdge self.now.plan edge result }
    {
        self.seats[job.0 as usize].bottle_marks(edge.0 as usize)
    }
}

impl<'a, A: Allocator> Tables<'a, A> {
    pub(crate) fn log(&self, instrument: InstrumentNo) -> &InstrumentLog<A>
        requires { instrument < length self.now.plan.instruments }
        ensures { result.now ≡ log_with_room self.now.plan self.now.state instrument }
    {
        &self.logs[instrument.0 as usize]
    }

    pub(crate) fn seat(&self, job: JobNo) -> &JobSeat<A>
        requires { IsJob self.now.plan job }
        ensures { result.now ≡ seat self.now.state job }
    {
        &self.seats[job.0 as usize]
    }

    /// The logs alone.
    pub(crate) fn into_logs(self) -> Vec<InstrumentLog<A>, A>
        ensures there { length result.items ≡ length self.entry.plan.instruments }
        ensures logs { (i : ℕ) → i < length self.entry.plan.instruments → log_in result.items i ≡ log_with_room self.entry.plan self.entry.state i }
    {
        let Tables {
            plan: _,
            edges: _,
            seats: _,
            logs,
        } = self;
        logs
    }

    /// One more entry at the end of a log that takes it.
    pub(crate) fn push_entry(&mut self, instrument: InstrumentNo, entry: Entry)
        requires there { instrument < length self.old.plan.instruments }
        requires may { MayAppend (log_with_room self.old.plan self.old.state instrument) entry }
        requires within_limits { IsWithinLimits entry }
        requires value { entry.value ≡ turned entry.verb (dial (log_at self.old.state instrument)) }
        ensures state { self.new.state ≡ with_entry self.old.state instrument entry }
        ensures plan { self.new.plan ≡ self.old.plan }
    {
        let log = &mut self.logs[instrument.0 as usize];
        push(log, &entry);
    }
}

impl<'a, A: Allocator> Tables<'a, A> {
    /// The plan takes one more session of the job, and each log room for it. Whatever fails, all is as it was.
    pub(crate) fn add_session(
        &mut self,
        job: JobNo,
        patience: Option<u32>,
        commands: &[(InstrumentNo, Verb)],
    ) -> Result<(), AddRefusal>
        requires { IsJob self.old.plan job }
        ensures plan { PlanAdds self.old.plan job (session_of patience commands.now) result self.new.plan }
        ensures state { self.new.state ≡ self.old.state }
        ensures own { OnOk result (IsOfItsOwn self.old.plan job (session_of patience commands.now)) }
        ensures is_plan { OnOk result (IsPlan self.new.plan) }
    {
        if let Some(refusal) = self.plan.refuses(job, patience, commands) {
            return Err(refusal);
        }
        make_rooms(&mut self.logs, commands)?;
        // The logs have the room first: so if the plan takes the session, nothing can fail any more.
        if let Err(refusal) = self.plan.add_session(job, patience, commands) {
            give_back(&mut self.logs, commands);
            return Err(refusal);
        }
        Ok(())
    }
}
