//! Building a plan, one line of its script at a time.
ghost use Rattle.std.specs.Prelude.{◌≡◌, ℕ, ◌<◌, ◌≤◌, length, None, Some, true, IsTrue, ◌↔◌, ◌&&◌, ◌||◌, nat_le, IfOk, IfErr, OnOk};
ghost use Rattle.std.specs.Option.{ForSome};
ghost use Rattle.lab_plan.specs.LabPlan.{LabPlan, all_commands};
ghost use Rattle.lab_plan.specs.Limits.{most_instruments, most_commands, largest_number};
ghost use Rattle.lab_plan.specs.IsPlan.{IsPlan};
ghost use Rattle.lab_plan.specs.Tables.{AreTablesOf};
ghost use Rattle.lab_plan.specs.Names.{IsName};
ghost use Rattle.lab_plan.specs.Verbs.{Fits};
ghost use Rattle.lab_plan.specs.Building.{empty_plan, with_job, with_session, with_command, has_session, job_refusal};
ghost use Rattle.lab_plan.specs.Building.{session_refusal, command_refusal, finish_refusal, but_memory, Does, Finishes};

use crate::draft::Draft;
use crate::limits::{MOST_COMMANDS, MOST_INSTRUMENTS, MOST_JOBS, MOST_SESSIONS};
use crate::named_sets::has_too_many_in_common;
use crate::plan::Plan;
use crate::refusal::PlanRefusal;
use crate::tables::Tables;
use crate::verb::Verb;
use std::alloc::{AllocError, Allocator, Global};
use std::marker::Model;

/// A plan that is being built, line by line. Contracts see it as the plan so far.
///
/// A call that is refused leaves the plan as it was, whatever the cause.
#[derive(Drop)]
pub struct PlanBuilder<A: Allocator + Copy = Global> {
    alloc: A,
    draft: Draft<A>,
    commands: u32,
    /// Where the last name of each slot stood: a guess for the next name of that slot.
    guesses: [u8; 256],
}

impl<A: Allocator + Copy> Model for PlanBuilder<A> {
    ghost use Rattle.std.specs.Prelude.{◌≡◌, length, ◌≤◌};
    ghost use Rattle.lab_plan.specs.LabPlan.{LabPlan, all_commands};
    ghost use Rattle.lab_plan.specs.Limits.{most_instruments, most_commands, largest_number};
    ghost use Rattle.lab_plan.specs.IsPlan.{IsDraft};
    ghost use Rattle.lab_plan.specs.Building.{AreClosed};

    ghost Value = { LabPlan };

    ghost view = { λ b. b.draft };

    ghost invariant = { λ b. record {
      is_draft : IsDraft b.draft;
      closed : AreClosed b.draft;
      counted : b.commands ≡ length (all_commands b.draft);
    } };
}

impl<A: Allocator + Copy> PlanBuilder<A> {
    /// A plan of version 1 with nothing in it. Takes no memory.
    #[tactic(auto, using(crate::proofs::Drafts::draft_empty, crate::proofs::Closed::closed_empty))]
    pub fn new(alloc: A) -> PlanBuilder<A>
        ensures { result ≡ empty_plan 1 }
    {
        PlanBuilder {
            alloc,
            draft: Draft::new(alloc, 1),
            commands: 0,
            guesses: [0; 256],
        }
    }

    /// A plan of version 2, whose sessions may have a patience. Takes no memory.
    #[tactic(auto, using(crate::proofs::Drafts::draft_empty, crate::proofs::Closed::closed_empty))]
    pub fn new_two(alloc: A) -> PlanBuilder<A>
        ensures { result ≡ empty_plan 2 }
    {
        PlanBuilder {
            alloc,
            draft: Draft::new(alloc, 2),
            commands: 0,
            guesses: [0; 256],
        }
    }

    /// The version of the script: 1, or 2 if sessions may have a patience.
    pub fn version(&self) -> u8
        ensures { result ≡ self.now.version }
    {
        self.draft.version()
    }

    /// Whether the plan has a job, so that a session can begin.
    pub fn has_job(&self) -> bool
        ensures { IsTrue result ↔ (0 < length self.now.jobs) }
    {
        self.draft.jobs() > 0
    }

    /// Whether the last job has a session, so that a command can follow.
    pub fn has_session(&self) -> bool
        ensures { result ≡ has_session self.now }
    {
        self.draft.has_session()
    }

    /// Adds a job; the session before it is closed.
    pub fn job(&mut self, name: &[u8]) -> Result<(), PlanRefusal>
        requires { IsName name.now }
        ensures { Does (job_refusal name.now self.old) (with_job name.now self.old) self.old result self.new }
    {
        if self.draft.is_bare() {
            return Err(PlanRefusal::SessionEmpty);
        }
        if self.draft.is_job(name) {
            return Err(PlanRefusal::JobTwice);
        }
        if self.draft.jobs() >= MOST_JOBS {
            return Err(PlanRefusal::LimitPassed);
        }
        self.draft.add_job(self.alloc, name)?;
        Ok(())
    }

    /// Begins a session of the last job; the session before it is closed.
    pub fn session(&mut self) -> Result<(), PlanRefusal>
        requires { 0 < length self.old.jobs }
        ensures { Does (session_refusal self.old) (with_session None self.old) self.old result self.new }
    {
        self.begin(None)
    }

    /// Begins a session that gives up after this many of its own turns in thirst.
    pub fn patient_session(&mut self, patience: u32) -> Result<(), PlanRefusal>
        requires job { 0 < length self.old.jobs }
        requires version { self.old.version ≡ 2 }
        requires number { patience ≤ largest_number }
        ensures { Does (session_refusal self.old) (with_session (Some patience) self.old) self.old result self.new }
    {
        self.begin(Some(patience))
    }

    fn begin(&mut self, patience: Option<u32>) -> Result<(), PlanRefusal>
        requires job { 0 < length self.old.jobs }
        requires patient { ForSome patience (λ n. (self.old.version ≡ 2) × (n ≤ largest_number)) }
        ensures { Does (session_refusal self.old) (with_session patience self.old) self.old result self.new }
    {
        if self.draft.is_bare() {
            return Err(PlanRefusal::SessionEmpty);
        }
        if self.draft.last_sessions() >= MOST_SESSIONS as usize {
            return Err(PlanRefusal::LimitPassed);
        }
        self.draft.begin(patience)?;
        Ok(())
    }

    /// Adds a command to the last session; a name that is new becomes the next instrument.
    pub fn command(&mut self, instrument: &[u8], verb: Verb) -> Result<(), PlanRefusal>
        requires name { IsName instrument.now }
        requires fits { Fits verb }
        requires session { has_session self.old ≡ true }
        ensures { Does (command_refusal instrument.now self.old) (with_command instrument.now verb self.old) self.old result self.new }
    {
        let slot = slot(instrument) as usize;
        let place = self.draft.place(self.guesses[slot] as usize, instrument);
        if self.is_past_limit(place.is_none()) {
            return Err(PlanRefusal::LimitPassed);
        }
        let number = place.unwrap_or(self.draft.instruments()) as u8;
        self.draft.push_at(self.alloc, place, instrument, verb)?;
        self.commands += 1;
        self.guesses[slot] = number;
        Ok(())
    }

    /// Whether one more command is past a limit, or the instrument that it would bring.
    fn is_past_limit(&self, is_new: bool) -> bool
        ensures { result ≡ nat_le most_commands (length (all_commands self.now)) || (is_new && nat_le most_instruments (length self.now.instruments)) }
    {
        self.commands >= MOST_COMMANDS || is_new && self.draft.instruments() >= MOST_INSTRUMENTS
    }

    /// The finished plan. A refusal hands the builder back as it was.
    pub fn finish(self) -> Result<Plan<A>, (PlanRefusal, PlanBuilder<A>)>
        ensures { Finishes (finish_refusal self) self result }
    {
        match self.tables() {
            Ok(tables) => {
                let PlanBuilder { draft, .. } = self;
                Ok(Plan::new(draft, tables))
            }
            Err(cause) => Err((cause, self)),
        }
    }

    /// The tables of the plan as it stands, if it is a whole one.
    fn tables(&self) -> Result<Tables<A>, PlanRefusal>
        ensures tables { IfOk result (λ tables. (finish_refusal self.now ≡ None) × AreTablesOf self.now tables) }
        ensures plan { OnOk result (IsPlan self.now) }
        ensures refused { IfErr result (λ cause. finish_refusal self.now ≡ but_memory cause) }
    {
        if self.draft.is_bare() {
            return Err(PlanRefusal::SessionEmpty);
        }
        if has_too_many_in_common(&self.draft) {
            return Err(PlanRefusal::TooManyInCommon);
        }
        Ok(Tables::new(self.alloc, &self.draft)?)
    }
}

/// The slot of a name, by its bytes. If two names share one, the guess may be wrong, and costs a search.
fn slot(name: &[u8]) -> u8 {
    let mut slot = 0u8;
    for byte in name {
        slot = slot.wrapping_mul(31).wrapping_add(*byte);
    }
    slot
}
