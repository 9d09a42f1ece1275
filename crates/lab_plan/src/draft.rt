//! What a builder builds and a plan keeps: the jobs and the names of the instruments.
ghost use Rattle.std.specs.Prelude.{◌≡◌, ◌≢◌, ℕ, ◌-◌, ◌<◌, ◌≤◌, ◌&&◌, nat_lt, length, take, slice_index_or, [], ◌∷◌, ◌++◌, is_ok, if◌then◌else◌, IfNone, true};
ghost use Rattle.std.specs.List.{position, AllPairs};
ghost use Rattle.std.specs.Str.{bytes_eq};
ghost use Rattle.lab_plan.specs.Limits.{most_instruments, most_commands};

use crate::job::Job;
use crate::name::Name;
use crate::numbers::{InstrumentNo, JobNo};
use crate::verb::Verb;
use std::alloc::{AllocError, Allocator, Global};
use std::marker::Model;

#[derive(Drop)]
pub(crate) struct Draft<A: Allocator = Global> {
    version: u8,
    jobs: Vec<Job<A>, A>,
    instruments: Vec<Name<A>, A>,
}

impl<A: Allocator> Model for Draft<A> {
    ghost use Rattle.lab_plan.specs.LabPlan.{LabPlan};

    ghost Value = { LabPlan };

    ghost view = { λ d. record { version = d.version; jobs = d.jobs.items; instruments = d.instruments.items } };
}

impl<A: Allocator> Draft<A> {
    ghost use Rattle.lab_plan.specs.LabPlan.{sessions, commands, patience, job_at, all_commands};
    ghost use Rattle.lab_plan.specs.Cuts.{commands_before};
    ghost use Rattle.lab_plan.specs.Building.{is_job, job_number, is_bare, has_session, last_job, IsPlace};
    ghost use Rattle.lab_plan.specs.Building.{with_job, with_session, with_command, on_last, in_last_session};

    pub(crate) fn new(alloc: A, version: u8) -> Draft<A>
    where
        A: Copy,
        ensures { result ≡ record { version = version; jobs = []; instruments = [] } }
    {
        Draft {
            version,
            jobs: Vec::new(alloc),
            instruments: Vec::new(alloc),
        }
    }

    #[tactic(auto, using(crate::proofs::Grown::found_any))]
    pub(crate) fn is_job(&self, name: &[u8]) -> bool
        ensures { result ≡ is_job name.now self.now }
    {
        self.job_place(name).is_some()
    }

    pub(crate) fn job_place(&self, name: &[u8]) -> Option<usize>
        ensures { result ≡ job_number name.now self.now }
    {
        self.jobs.iter().position(|job| job.is(name))
    }

    fn position(&self, name: &[u8]) -> Option<usize>
        ensures { result ≡ position (bytes_eq name.now) self.now.instruments }
    {
        self.instruments.iter().position(|other| other.is(name))
    }

    fn is_at(&self, place: usize, name: &[u8]) -> bool
        ensures { result ≡ nat_lt place (length self.now.instruments) && bytes_eq name.now (slice_index_or self.now.instruments place []) }
    {
        place < self.instruments.len() && self.instruments[place].is(name)
    }

    /// The number of an instrument that the draft has. A good guess saves the search.
    #[tactic(auto, using(crate::proofs::Grown::placed))]
    pub(crate) fn place(&self, guess: usize, name: &[u8]) -> Option<usize>
        requires { AllPairs (λ a b. a ≢ b) self.now.instruments }
        ensures { IsPlace name.now self.now result }
    {
        if self.is_at(guess, name) {
            return Some(guess);
        }
        self.position(name)
    }

    pub(crate) fn has_session(&self) -> bool
        ensures { result ≡ has_session self.now }
    {
        !self.jobs.is_empty() && self.jobs[self.jobs.len() - 1].len() > 0
    }

    pub(crate) fn is_bare(&self) -> bool
        ensures { result ≡ is_bare self.now }
    {
        !self.jobs.is_empty() && self.jobs[self.jobs.len() - 1].is_bare()
    }

    pub(crate) fn last_sessions(&self) -> usize
        requires { 0 < length self.now.jobs }
        ensures { result ≡ length (last_job self.now).sessions }
    {
        self.jobs[self.jobs.len() - 1].len()
    }

    pub(crate) fn add_job(&mut self, alloc: A, name: &[u8]) -> Result<(), AllocError>
    where
        A: Copy,
        ensures { self.new ≡ (if is_ok result then with_job name.now self.old else self.old) }
    {
        let name = Name::new(alloc, name)?;
        self.jobs.push(Job::new(alloc, name))?;
        Ok(())
    }

    pub(crate) fn begin(&mut self, patience: Option<u32>) -> Result<(), AllocError>
        requires { 0 < length self.old.jobs }
        ensures { self.new ≡ (if is_ok result then with_session patience self.old else self.old) }
    {
        let last = self.jobs.len() - 1;
        let job = &mut self.jobs[last];
        job.begin(patience)
    }

    fn add_instrument(&mut self, alloc: A, name: &[u8]) -> Result<(), AllocError>
        ensures { self.new ≡ (if is_ok result then record self.old { instruments = self.old.instruments ++ name.now ∷ [] } else self.old) }
    {
        self.instruments.push(Name::new(alloc, name)?)?;
        Ok(())
    }

    fn drop_instrument(&mut self)
        ensures { self.new ≡ record self.old { instruments = take (length self.old.instruments - 1) self.old.instruments } }
    {
        let _ = self.instruments.pop();
    }

    fn push(&mut self, instrument: InstrumentNo, verb: Verb) -> Result<(), AllocError>
        requires { has_session self.old ≡ true }
        ensures { self.new ≡ (if is_ok result then record self.old { jobs = on_last (in_last_session instrument verb) self.old.jobs } else self.old) }
    {
        let last = self.jobs.len() - 1;
        let job = &mut self.jobs[last];
        job.push(instrument, verb)
    }

    /// A command on the instrument at a place, or on the next one if it has none.
    pub(crate) fn push_at(
        &mut self,
        alloc: A,
        place: Option<usize>,
        name: &[u8],
        verb: Verb,
    ) -> Result<(), AllocError>
        requires session { has_session self.old ≡ true }
        requires place { IsPlace name.now self.old place }
        requires few { IfNone place (length self.old.instruments < most_instruments) }
        requires most { length self.old.instruments ≤ most_instruments }
        ensures { self.new ≡ (if is_ok result then with_command name.now verb self.old else self.old) }
    {
        match place {
            Some(place) => self.push(InstrumentNo(place as u8), verb),
            None => self.push_new(alloc, name, verb),
        }
    }

    /// A command on an instrument that is new, whose name comes with it.
    fn push_new(&mut self, alloc: A, name: &[u8], verb: Verb) -> Result<(), AllocError>
        requires session { has_session self.old ≡ true }
        requires few { length self.old.instruments < most_instruments }
        ensures { self.new ≡ (if is_ok result then record self.old {
          jobs = on_last (in_last_session (length self.old.instruments) verb) self.old.jobs;
          instruments = self.old.instruments ++ name.now ∷ [];
        } else self.old) }
    {
        let number = self.instruments() as u8;
        self.add_instrument(alloc, name)?;
        let pushed = self.push(InstrumentNo(number), verb);
        if pushed.is_err() {
            self.drop_instrument();
        }
        pushed
    }

    /// How many commands all jobs have together. One step for each job.
    pub(crate) fn all_commands(&self) -> usize
        requires { length (all_commands self.now) ≤ most_commands }
        ensures { result ≡ length (all_commands self.now) }
    {
        let mut count = 0;
        for job in &self.jobs {
            count += job.all_commands().len();
        }
        count
    }

    pub(crate) fn version(&self) -> u8
        ensures { result ≡ self.now.version }
    {
        self.version
    }

    pub(crate) fn jobs(&self) -> usize
        ensures { result ≡ length self.now.jobs }
    {
        self.jobs.len()
    }

    pub(crate) fn instruments(&self) -> usize
        ensures { result ≡ length self.now.instruments }
    {
        self.instruments.len()
    }

    pub(crate) fn job_name(&self, job: JobNo) -> &[u8]
        requires { job < length self.now.jobs }
        ensures { result.now ≡ (job_at self.now job).name }
    {
        self.jobs[job.0 as usize].name().as_bytes()
    }

    pub(crate) fn instrument_name(&self, instrument: InstrumentNo) -> &[u8]
        requires { instrument < length self.now.instruments }
        ensures { result.now ≡ slice_index_or self.now.instruments instrument [] }
    {
        self.instruments[instrument.0 as usize].as_bytes()
    }

    pub(crate) fn sessions(&self, job: JobNo) -> usize
        requires { job < length self.now.jobs }
        ensures { result ≡ length (sessions self.now job) }
    {
        self.jobs[job.0 as usize].len()
    }

    pub(crate) fn commands(&self, job: JobNo, session: u32) -> &[(InstrumentNo, Verb)]
        requires is_job { job < length self.now.jobs }
        requires begun { 1 ≤ session }
        requires is_session { session ≤ length (sessions self.now job) }
        ensures { result.now ≡ commands self.now job session }
    {
        self.jobs[job.0 as usize].commands(session as usize - 1)
    }

    pub(crate) fn patience(&self, job: JobNo, session: u32) -> Option<u32>
        requires is_job { job < length self.now.jobs }
        requires begun { 1 ≤ session }
        requires is_session { session ≤ length (sessions self.now job) }
        ensures { result ≡ patience self.now job session }
    {
        self.jobs[job.0 as usize].patience(session as usize - 1)
    }

    /// Where a session's commands begin among all of its job.
    pub(crate) fn start(&self, job: JobNo, session: u32) -> usize
        requires is_job { job < length self.now.jobs }
        requires begun { 1 ≤ session }
        requires is_session { session ≤ length (sessions self.now job) }
        ensures { result ≡ commands_before (sessions self.now job) (session - 1) }
    {
        self.jobs[job.0 as usize].start(session as usize - 1)
    }
}

impl<A: Allocator> Draft<A> {
    ghost use Rattle.lab_plan.specs.Longer.{session_of, with_one_more};

    /// Adds a session of any job, of instruments that the draft has.
    pub(crate) fn add_session(
        &mut self,
        job: JobNo,
        patience: Option<u32>,
        commands: &[(InstrumentNo, Verb)],
    ) -> Result<(), AllocError>
        requires { job < length self.old.jobs }
        ensures { self.new ≡ (if is_ok result then with_one_more self.old job (session_of patience commands.now) else self.old) }
    {
        let job = &mut self.jobs[job.0 as usize];
        job.add_session(patience, commands)
    }

    pub(crate) fn all_jobs(&self) -> &[Job<A>]
        ensures { result.now ≡ self.now.jobs }
    {
        &self.jobs
    }
}
