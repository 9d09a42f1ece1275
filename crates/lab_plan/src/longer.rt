//! One more session of a plan's job.
ghost use Rattle.std.specs.Prelude.{◌≡◌, ◌<◌, IsTrue, length, OnOk};
ghost use Rattle.lab_plan.specs.LabPlan.{names};
ghost use Rattle.lab_plan.specs.Longer.{session_of, is_past_limit, are_its_own, may_be_patient, all_fit, more_refusal, Adds, IsOfItsOwn};

use crate::limits::{LARGEST_NUMBER, MOST_COMMANDS, MOST_SESSIONS};
use crate::numbers::{InstrumentNo, JobNo};
use crate::plan::Plan;
use crate::refusal::MoreRefusal;
use crate::verb::Verb;
use std::alloc::Allocator;

/// Whether the numbers of all commands are the dial's.
fn all_fit(commands: &[(InstrumentNo, Verb)]) -> bool
    ensures { result ≡ all_fit commands.now }
{
    commands.iter().all(|command| command.1.fits())
}

impl<A: Allocator> Plan<A> {
    /// Whether a session of the job names the instrument. If so, a further session of the job may use it.
    pub fn names(&self, job: JobNo, instrument: InstrumentNo) -> bool
        requires { job < length self.now.jobs }
        ensures { result ≡ names self.now job instrument }
    {
        self.named(job).has(instrument)
    }

    fn are_its_own(&self, job: JobNo, commands: &[(InstrumentNo, Verb)]) -> bool
        requires { job < length self.now.jobs }
        ensures { result ≡ are_its_own self.now job commands.now }
    {
        let named = self.named(job);
        commands.iter().all(|command| named.has(command.0))
    }

    fn may_be_patient(&self, patience: Option<u32>) -> bool
        ensures { result ≡ may_be_patient self.now patience }
    {
        match patience {
            Some(turns) => self.version() == 2 && turns <= LARGEST_NUMBER,
            None => true,
        }
    }

    #[tactic(auto, using(crate::proofs::OneMore::past_is))]
    fn is_past_limit(&self, job: JobNo, commands: &[(InstrumentNo, Verb)]) -> bool
        requires { job < length self.now.jobs }
        ensures { result ≡ is_past_limit self.now job (session_of None commands.now) }
    {
        self.sessions(job) >= MOST_SESSIONS
            || commands.len() > MOST_COMMANDS as usize - self.all_commands()
    }

    /// Why the plan refuses one more session of the job, unless no memory is left.
    pub fn more_refusal(
        &self,
        job: JobNo,
        patience: Option<u32>,
        commands: &[(InstrumentNo, Verb)],
    ) -> Option<MoreRefusal>
        requires { job < length self.now.jobs }
        ensures { result ≡ more_refusal self.now job (session_of patience commands.now) }
    {
        if commands.is_empty() {
            Some(MoreRefusal::Empty)
        } else if self.is_past_limit(job, commands) {
            Some(MoreRefusal::LimitPassed)
        } else if !self.are_its_own(job, commands) {
            Some(MoreRefusal::NotItsOwn)
        } else if !self.may_be_patient(patience) {
            Some(MoreRefusal::NotPatient)
        } else if !all_fit(commands) {
            Some(MoreRefusal::TooLarge)
        } else {
            None
        }
    }

    /// Adds a session behind the others of a job, of instruments that the job names already: edges, bottles and
    /// instruments stay as they are. It takes time in proportion to the session, and a step for each job. A call that
    /// is refused leaves the plan as it was.
    pub fn add_session(
        &mut self,
        job: JobNo,
        patience: Option<u32>,
        commands: &[(InstrumentNo, Verb)],
    ) -> Result<(), MoreRefusal>
        requires { job < length self.old.jobs }
        ensures adds { Adds self.old job (session_of patience commands.now) result self.new }
        ensures own { OnOk result (IsOfItsOwn self.old job (session_of patience commands.now)) }
    {
        if let Some(refusal) = self.more_refusal(job, patience, commands) {
            return Err(refusal);
        }
        self.push_session(job, patience, commands)?;
        Ok(())
    }
}
