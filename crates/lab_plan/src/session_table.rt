//! What is kept of the sessions of each job: what each needs, and the place of each command in its part.
ghost use Rattle.std.specs.Prelude.{◌≡◌, ℕ, ◌+◌, ◌<◌, ◌≤◌, ◌++◌, length, slice_index_or, vec_capacity, is_ok, if◌then◌else◌, IfOk};
ghost use Rattle.std.specs.List.{All};
ghost use Rattle.lab_plan.specs.Limits.{most_instruments, most_commands};
ghost use Rattle.lab_plan.specs.LabPlan.{count_on};
ghost use Rattle.lab_plan.specs.NamedBy.{HasSmall};
ghost use Rattle.lab_plan.specs.SessionTables.{IsJobTable, AreJobTables, places_of, table_with, table_without, no_place};

use crate::instrument_set::InstrumentSet;
use crate::job::Job;
use crate::limits::MOST_INSTRUMENTS;
use crate::named_sets::named_by;
use crate::numbers::InstrumentNo;
use crate::place::Place;
use crate::verb::Verb;
use std::alloc::{AllocError, Allocator, Global};
use std::marker::Model;

/// How many of some commands are on each instrument.
fn parts_of(commands: &[(InstrumentNo, Verb)]) -> [u32; MOST_INSTRUMENTS]
    requires numbered { All (λ command. command.0 < most_instruments) commands.now }
    requires few { length commands.now ≤ most_commands }
    ensures length { length result ≡ most_instruments }
    ensures parts { (i : ℕ) → i < most_instruments → slice_index_or result i 0 ≡ count_on i commands.now }
{
    let mut parts = [0; MOST_INSTRUMENTS];
    for (instrument, _) in commands {
        parts[instrument.0 as usize] += 1;
    }
    parts
}

/// Adds the places of a session's commands.
fn push_places<A: Allocator>(places: &mut Vec<Place, A>, commands: &[(InstrumentNo, Verb)])
    requires numbered { All (λ command. command.0 < most_instruments) commands.now }
    requires few { length commands.now ≤ most_commands }
    requires room { length places.old.items + length commands.now ≤ vec_capacity places.old }
    ensures places { places.new.items ≡ places.old.items ++ places_of commands.now }
    ensures room { vec_capacity places.new ≡ vec_capacity places.old }
{
    let lengths = parts_of(commands);
    let mut parts = [0; MOST_INSTRUMENTS];
    for (instrument, _) in commands {
        let place = parts[instrument.0 as usize] + 1;
        parts[instrument.0 as usize] = place;
        let length = lengths[instrument.0 as usize];
        places.push_reserved(Place { place, length });
    }
}

/// What is kept of the sessions of one job: what each names, the places of the commands of all, and what all name together.
#[derive(Drop)]
pub(crate) struct JobTable<A: Allocator = Global> {
    needs: Vec<InstrumentSet, A>,
    places: Vec<Place, A>,
    named: InstrumentSet,
}

impl<A: Allocator> Model for JobTable<A> {
    ghost use Rattle.lab_plan.specs.SessionTables.{JobTable};

    ghost Value = { JobTable };

    ghost view = { λ t. record { needs = t.needs.items; places = t.places.items; named = t.named } };
}

impl<A: Allocator> JobTable<A> {
    fn new(alloc: A, job: &Job<A>) -> Result<JobTable<A>, AllocError>
    where
        A: Copy,
        requires { HasSmall job.now }
        ensures { IfOk result (λ table. IsJobTable job.now table) }
    {
        let mut needs = Vec::with_capacity(alloc, job.len())?;
        let mut places = Vec::with_capacity(alloc, job.all_commands().len())?;
        for before in 0..job.len() {
            let commands = job.commands(before);
            needs.push_reserved(InstrumentSet::of(commands));
            push_places(&mut places, commands);
        }
        Ok(JobTable {
            needs,
            places,
            named: named_by(job),
        })
    }

    /// Adds what is kept of one more session, all of whose instruments the job names already.
    pub(crate) fn add_session(
        &mut self,
        needs: InstrumentSet,
        commands: &[(InstrumentNo, Verb)],
    ) -> Result<(), AllocError>
        requires numbered { All (λ command. command.0 < most_instruments) commands.now }
        requires few { length commands.now ≤ most_commands }
        ensures { self.new ≡ (if is_ok result then table_with needs commands.now self.old else self.old) }
    {
        self.needs.reserve(1)?;
        self.places.reserve(commands.len())?;
        self.needs.push_reserved(needs);
        push_places(&mut self.places, commands);
        Ok(())
    }

    /// Takes back the last session, which has this many commands.
    pub(crate) fn take_back_session(&mut self, commands: usize)
        requires sessions { 0 < length self.old.needs }
        requires commands { commands ≤ length self.old.places }
        ensures { self.new ≡ table_without commands self.old }
    {
        self.needs.truncate(self.needs.len() - 1);
        self.places.truncate(self.places.len() - commands);
    }

    /// What all sessions of the job name.
    pub(crate) fn named(&self) -> InstrumentSet
        ensures { result ≡ self.now.named }
    {
        self.named
    }

    /// What the session with this many before it names.
    pub(crate) fn needs(&self, before: usize) -> InstrumentSet
        requires { before < length self.now.needs }
        ensures { result ≡ slice_index_or self.now.needs before 0 }
    {
        self.needs[before]
    }

    /// The place of a command, by its position among all of the job.
    pub(crate) fn place(&self, position: usize) -> Place
        requires { position < length self.now.places }
        ensures { result ≡ slice_index_or self.now.places position no_place }
    {
        self.places[position]
    }
}

/// What is kept of the sessions of all jobs.
pub(crate) fn job_tables<A: Allocator + Copy>(
    alloc: A,
    jobs: &[Job<A>],
) -> Result<Vec<JobTable<A>, A>, AllocError>
    requires { All HasSmall jobs.now }
    ensures { IfOk result (λ tables. AreJobTables jobs.now tables.items) }
{
    let mut tables = Vec::with_capacity(alloc, jobs.len())?;
    for job in jobs {
        tables.push_reserved(JobTable::new(alloc, job)?);
    }
    Ok(tables)
}
