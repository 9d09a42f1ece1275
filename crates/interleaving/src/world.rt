//! A world: a plan, and a state of its bench that legal events have led to from an opening without a cycle.
ghost use Rattle.std.specs.Prelude.{◌≡◌, ℕ, ◌-◌, ◌<◌, ◌↔◌, [], true, IsTrue, length, IfOk, IfErr, Ok};
ghost use Rattle.cycles.specs.Cycles.{IsAmong, AreBelow};
ghost use Rattle.lab_plan.specs.LabPlan.{edges};
ghost use Rattle.legal_steps.specs.State.{IsOwn, edge as edge_at, seat as seat_at, phase as phase_at};
ghost use Rattle.legal_steps.specs.State.{fork_mark as fork_mark_at, bottle_marks as bottle_marks_at};
ghost use Rattle.legal_steps.specs.Legal.{IsJob, May};
ghost use Rattle.legal_steps.specs.Fitting.{IsPhaseOf};
ghost use Rattle.interleaving.specs.Pairs.{IsPrecedenceByEdge};
ghost use Rattle.legal_steps.specs.WholeLogs.{log_with_room};
ghost use Rattle.interleaving.specs.Rooms.{log_at as log_in};
ghost use Rattle.interleaving.specs.Counting.{count_at};
ghost use Rattle.interleaving.specs.Kept.{IsKept};
ghost use Rattle.interleaving.specs.World.{IsReachedWith, IsReachedBy, Steps, Replays};
ghost use Rattle.interleaving.specs.Adding.{WorldAdds};
ghost use Rattle.lab_plan.specs.Longer.{session_of};
ghost use Rattle.interleaving.specs.Start.{at_start, IsStartRefused};
ghost use Rattle.legal_steps.specs.Opening.{AreChoices, IsOpening, opening_of, the_opening};
ghost use Rattle.legal_steps.specs.Precedence.{IsAcyclic, Precedes};

use crate::add_refusal::AddRefusal;
use crate::counts::JobCounts;
use crate::kept_plan::KeptPlan;
use crate::opening_tables::are_choices;
use crate::refusal::StartRefusal;
use crate::tables::Tables;
use crate::tape::Tape;
use cycles::NoMemory;
use instrument_log::InstrumentLog;
use lab_plan::{EdgeNo, InstrumentNo, JobNo, Plan, Verb};
use legal_steps::{Drinking, EdgeState, EndChoice, Event, JobState, NotLegal, Past};
use std::alloc::{AllocError, Allocator, Global};
use std::marker::Model;
use std::snapshot::Snapshot;

/// A state of a plan's bench, with what each job has done so far.
///
/// It begins with [`start`](Self::start), [`opening`](Self::opening) or [`of_plan`](Self::of_plan), and goes
/// on by one legal event at a time. So each of its states is reached from an opening without a cycle of
/// precedence, and all that the laws of such states say is true of it. After its start it takes no memory,
/// but for the room of the events that it [keeps](Self::keep) if it is told to, and for each session that
/// is [added](Self::add_session).
#[derive(Drop)]
pub struct World<'a, A: Allocator = Global> {
    tables: Tables<'a, A>,
    tally: JobCounts<A>,
    tape: Tape<A>,
    /// Where the world began, and the events since: for contracts alone.
    start: Snapshot<Tables<'a, A>>,
    past: Past,
}

impl<'a, A: Allocator> Model for World<'a, A> {
    ghost use Rattle.interleaving.specs.Kept.{IsKept};
    ghost use Rattle.interleaving.specs.World.{WorldView, IsReachedBy};

    ghost Value = { WorldView };

    ghost view = { λ w. record {
      plan = w.tables.plan;
      state = w.tables.state;
      counts = w.tally;
      opening = w.start.value.state;
      past = w.past.events;
      kept = w.tape;
    } };

    ghost invariant = { λ w. record {
      reached : IsReachedBy w.tables.plan w.start.value.state w.past.events w.tables.state w.tally;
      kept : IsKept w.past.events w.tape;
    } };
}

impl<'a, A: Allocator + Copy> World<'a, A> {
    /// A world at the start that the choices give: one for each edge, by edge number. Every fork
    /// starts dirty and every token opposite to its fork or bottle. All memory is taken here.
    pub fn start(
        alloc: A,
        plan: &'a Plan<A>,
        choices: &[EndChoice],
    ) -> Result<World<'a, A>, StartRefusal>
        ensures started { IfOk result (λ world. world ≡ at_start plan.now (opening_of plan.now choices.now)) }
        ensures opens { IfOk result (λ _. AreChoices plan.now choices.now × IsAcyclic plan.now (opening_of plan.now choices.now)) }
        ensures refused { IfErr result (IsStartRefused plan.now choices.now) }
    {
        if !are_choices(plan, choices) {
            return Err(StartRefusal::BadChoices);
        }
        let tables = Tables::opened(alloc, KeptPlan::lent(plan), choices)?;
        if tables.has_cycle(alloc)? {
            return Err(StartRefusal::Cycle);
        }
        Ok(World::fresh(alloc, tables)?)
    }

    /// A world in the initial state, with each fork and each bottle at the edge's lower job. On each edge
    /// the higher job precedes then, so no cycle can be.
    pub fn opening(alloc: A, plan: &'a Plan<A>) -> Result<World<'a, A>, NoMemory>
        ensures { IfOk result (λ world. world ≡ at_start plan.now (the_opening plan.now)) }
    {
        World::at_opening(alloc, KeptPlan::lent(plan))
    }

    /// The same world, but it owns its plan, so it may have any lifetime. Dropping it gives back all memory of both.
    pub fn of_plan(alloc: A, plan: Plan<A>) -> Result<World<'a, A>, NoMemory>
        ensures { IfOk result (λ world. world ≡ at_start plan (the_opening plan)) }
    {
        World::at_opening(alloc, KeptPlan::own(plan))
    }

    /// The world in the initial state, whoever owns the plan.
    fn at_opening(alloc: A, plan: KeptPlan<'a, A>) -> Result<World<'a, A>, NoMemory>
        ensures { IfOk result (λ world. world ≡ at_start plan.entry (the_opening plan.entry)) }
    {
        let tables = Tables::opening(alloc, plan)?;
        World::fresh(alloc, tables)
    }

    /// The world in the state of these tables, before its first event.
    fn fresh(alloc: A, tables: Tables<'a, A>) -> Result<World<'a, A>, NoMemory>
        requires opening { IsOpening tables.plan tables.state }
        requires acyclic { IsAcyclic tables.plan tables.state }
        ensures { IfOk result (λ world. world ≡ at_start tables.entry.plan tables.entry.state) }
    {
        let tally = JobCounts::new(alloc, tables.plan().jobs())?;
        let start = Snapshot::of(&tables);
        Ok(World {
            tables,
            tally,
            tape: Tape::none(alloc),
            start,
            past: Past::none(),
        })
    }
}

impl<'a, A: Allocator> World<'a, A> {
    /// Does one event if it is legal; otherwise the world stays as it is.
    pub fn step(&mut self, event: Event) -> Result<(), NotLegal>
        ensures { Steps self.old event result self.new }
    {
        if !self.tables.enabled(&event) {
            return Err(NotLegal);
        }
        self.done(event);
        Ok(())
    }

    /// Does one event that is legal, without asking again whether it is.
    pub fn done(&mut self, event: Event)
        requires { May self.old.plan self.old.state event }
        ensures { Steps self.old event (Ok tt) self.new }
    {
        self.tables.apply(&event);
        self.tally.count(&event);
        self.tape.keep(&event);
        self.past = Past::after(&self.past, &event);
    }

    /// Whether the event is legal now, so that [`step`](Self::step) would do it.
    pub fn enabled(&self, event: Event) -> bool
        ensures { IsTrue result ↔ May self.now.plan self.now.state event }
    {
        self.tables.enabled(&event)
    }

    /// The events one after another, up to the first that isn't legal: its place from 0 is the error's,
    /// and the world stands before it.
    pub fn replay(&mut self, events: &[Event]) -> Result<usize, (usize, NotLegal)>
        ensures { Replays self.old events.now result self.new }
    {
        let mut done = 0;
        for event in events {
            if let Err(refused) = self.step(*event) {
                return Err((done, refused));
            }
            done += 1;
        }
        Ok(done)
    }

    /// Adds a session behind the others of a job, of instruments that the job names already, while the world goes on: the
    /// plan is longer then, and every event so far is legal by it. It takes memory, in proportion to the session.
    pub fn add_session(
        &mut self,
        job: JobNo,
        patience: Option<u32>,
        commands: &[(InstrumentNo, Verb)],
    ) -> Result<(), AddRefusal>
        requires { IsJob self.old.plan job }
        ensures { WorldAdds self.old job (session_of patience commands.now) result self.new }
    {
        if self.tables.phase(job).drinking == Drinking::Retired {
            return Err(AddRefusal::HasRetired);
        }
        self.tables.add_session(job, patience, commands)
    }

    /// The plan, which the world borrows or owns.
    pub fn plan(&self) -> &Plan<A>
        ensures plan { result.now ≡ self.now.plan }
        ensures reached { IsReachedWith self.now.plan self.now.state self.now.counts }
        ensures past { IsReachedBy self.now.plan self.now.opening self.now.past self.now.state self.now.counts }
        ensures kept { IsKept self.now.past self.now.kept }
    {
        self.tables.plan()
    }

    /// Where the things of the edge are.
    pub fn edge(&self, edge: EdgeNo) -> EdgeState
        requires { edge < length (edges self.now.plan) }
        ensures { result ≡ edge_at self.now.state edge }
    {
        self.tables.edge(edge)
    }

    /// How far the job is.
    pub fn job(&self, job: JobNo) -> JobState
        requires { IsJob self.now.plan job }
        ensures phase { result ≡ phase_at self.now.state job }
        ensures fits { IsPhaseOf self.now.plan job result }
    {
        self.tables.phase(job)
    }

    /// Whether the job has a mark for the fork of one of its edges.
    pub fn fork_mark(&self, job: JobNo, edge: EdgeNo) -> bool
        requires { IsOwn self.now.plan job edge }
        ensures { result ≡ fork_mark_at self.now.state job edge }
    {
        self.tables.fork_mark(job, edge)
    }

    /// The bottles of one of its edges that the job has marks for; bit `k` for bottle `k`.
    pub fn bottle_marks(&self, job: JobNo, edge: EdgeNo) -> u32
        requires { IsOwn self.now.plan job edge }
        ensures { result ≡ bottle_marks_at self.now.state job edge }
    {
        self.tables.bottle_marks(job, edge)
    }

    /// Whether the first job precedes the second: of a clean fork the holder does, and of a fork that is
    /// dirty or whose holder eats the other (Chandy and Misra 1984). Of jobs without an edge neither does.
    pub fn precedes(&self, a: JobNo, b: JobNo) -> bool
        ensures { IsTrue result ↔ Precedes self.now.plan self.now.state a b }
    {
        self.tables.precedes(a, b)
    }

    /// The pairs of jobs of which the first precedes the second: one for each edge, by edge number
    /// (Chandy and Misra 1984). Only the answer takes memory.
    pub fn precedence<B: Allocator>(&self, alloc: B) -> Result<Vec<(JobNo, JobNo), B>, NoMemory>
        ensures by_edge { IfOk result (λ pairs. IsPrecedenceByEdge self.now.plan self.now.state pairs.items) }
        ensures pairs { IfOk result (λ pairs. (a b : ℕ) → IsAmong pairs.items a b ↔ Precedes self.now.plan self.now.state a b) }
        ensures below { IfOk result (λ pairs. AreBelow (length self.now.plan.jobs) pairs.items) }
    {
        Ok(self.tables.precedence(alloc)?)
    }

    /// All fork marks of a job, by edge number.
    pub fn fork_marks(&self, job: JobNo) -> &[bool]
        requires { IsJob self.now.plan job }
        ensures { result.now ≡ (seat_at self.now.state job).fork_marks }
    {
        self.tables.seat(job).fork_mark_list()
    }

    /// All bottle marks of a job, by edge number.
    pub fn all_bottle_marks(&self, job: JobNo) -> &[u32]
        requires { IsJob self.now.plan job }
        ensures { result.now ≡ (seat_at self.now.state job).bottle_marks }
    {
        self.tables.seat(job).bottle_mark_list()
    }

    /// The logs, and the events that led here.
    pub fn into_logs(self) -> (Vec<InstrumentLog<A>, A>, Past)
        ensures there { length result.0.items ≡ length self.entry.plan.instruments }
        ensures logs { (i : ℕ) → i < length self.entry.plan.instruments → log_in result.0.items i ≡ log_with_room self.entry.plan self.entry.state i }
        ensures past { result.1.events ≡ self.entry.past }
    {
        let World {
            tables,
            tally: _,
            tape: _,
            start: _,
            past,
        } = self;
        (tables.into_logs(), past)
    }

    /// From now on keeps its events, up to this many until they are [taken](Self::take_kept). What was kept before is let go.
    pub fn keep(&mut self, alloc: A, room: usize) -> Result<(), AllocError>
        ensures kept { IfOk result (λ _. self.new ≡ record self.old { kept = record { room = room; events = []; whole = true } }) }
        ensures refused { IfErr result (λ _. self.new ≡ self.old) }
    {
        self.tape = Tape::with_room(alloc, room)?;
        Ok(())
    }

    /// The events that are kept, oldest first.
    pub fn kept(&self) -> &[Event]
        ensures { result.now ≡ self.now.kept.events }
    {
        self.tape.events()
    }

    /// Whether no event was left out of those that are kept, for want of room.
    pub fn is_whole(&self) -> bool
        ensures { result ≡ self.now.kept.whole }
    {
        self.tape.is_whole()
    }

    /// How many more events can be kept.
    pub fn kept_room(&self) -> usize
        ensures { result ≡ self.now.kept.room - length self.now.kept.events }
    {
        self.tape.left()
    }

    /// Lets the kept events go, so that there is room for as many again.
    pub fn take_kept(&mut self)
        ensures { self.new ≡ record self.old { kept = record self.old.kept { events = [] } } }
    {
        self.tape.clear();
    }

    /// The log of the instrument.
    pub fn log(&self, instrument: InstrumentNo) -> &InstrumentLog<A>
        requires { instrument < length self.now.plan.instruments }
        ensures { result.now ≡ log_with_room self.now.plan self.now.state instrument }
    {
        self.tables.log(instrument)
    }

    /// How many meals the job has begun.
    pub fn meals(&self, job: JobNo) -> u32
        requires { IsJob self.now.plan job }
        ensures { result ≡ (count_at self.now.counts job).meals }
    {
        self.tally.at(job).meals
    }

    /// How many of its sessions the job has ended; those that it gave up are not among them.
    pub fn sessions_done(&self, job: JobNo) -> u32
        requires { IsJob self.now.plan job }
        ensures { result ≡ (count_at self.now.counts job).sessions_done }
    {
        self.tally.at(job).sessions_done
    }

    /// How many of its sessions the job has given up.
    pub fn withdrawn(&self, job: JobNo) -> u32
        requires { IsJob self.now.plan job }
        ensures { result ≡ (count_at self.now.counts job).withdrawn }
    {
        self.tally.at(job).withdrawn
    }
}
