//! What a lab answers without a step.
ghost use Rattle.std.specs.Prelude.{◌≡◌, ◌≤◌, ◌<◌, IfSome, IfNone, length};
ghost use Rattle.lab_plan.specs.LabPlan.{job_at};
ghost use Rattle.live_lab.specs.Readers.{IsInstrumentName, IsSession, IsStandingAt};

use crate::clock::{clock_of, waited_in};
use crate::lab::Lab;
use lab_plan::{InstrumentNo, JobNo};
use legal_steps::{Counts, JobState};

/// What a session needs.
#[derive(Clone, Copy)]
pub struct SessionFacts {
    /// Its instruments, as a set: bit i stands for instrument i.
    pub needs: u64,
    /// How many commands it has.
    pub commands: usize,
    /// How many of its job's turns it may stay thirsty, if it has a patience.
    pub patience: Option<u32>,
}

/// How far a job is.
#[derive(Clone, Copy)]
pub struct Standing {
    pub phase: JobState,
    /// How many sessions the job has.
    pub sessions: u32,
    pub counts: Counts,
    /// How many turns its session has waited.
    pub waited: u32,
    /// How many turns are counted of it.
    pub turns: u64,
}

impl Lab {
    /// How many jobs there are; their numbers are the ones below it.
    pub fn jobs(&self) -> usize
        ensures jobs { result ≡ length self.now.world.plan.jobs }
        ensures few { result ≤ 32 }
    {
        self.world.plan().jobs()
    }

    /// How many instruments there are; their numbers are the ones below it.
    pub fn instruments(&self) -> usize
        ensures { result ≡ length self.now.world.plan.instruments }
    {
        self.world.plan().instruments()
    }

    /// The name of a job.
    pub fn job_name(&self, job: u32) -> Option<&[u8]>
        ensures found { IfSome result (λ name. (job < length self.now.world.plan.jobs) × (name.now ≡ (job_at self.now.world.plan job).name)) }
        ensures none { IfNone result (length self.now.world.plan.jobs ≤ job) }
    {
        let plan = self.world.plan();
        if (job as usize) < plan.jobs() {
            Some(plan.job_name(JobNo(job as u8)))
        } else {
            None
        }
    }

    /// The name of an instrument.
    pub fn instrument_name(&self, instrument: u32) -> Option<&[u8]>
        ensures found { IfSome result (λ name. IsInstrumentName self.now.world.plan instrument name.now) }
        ensures none { IfNone result (length self.now.world.plan.instruments ≤ instrument) }
    {
        let plan = self.world.plan();
        if (instrument as usize) < plan.instruments() {
            Some(plan.instrument_name(InstrumentNo(instrument as u8)))
        } else {
            None
        }
    }

    /// A job's session, counted from 1, if there is such a job and it has this many.
    pub fn session(&self, job: u32, session: u32) -> Option<SessionFacts>
        ensures { IsSession self.now.world.plan job session result }
    {
        let plan = self.world.plan();
        if plan.jobs() <= job as usize {
            return None;
        }
        let number = JobNo(job as u8);
        if session == 0 || plan.sessions(number) < session {
            return None;
        }
        Some(SessionFacts {
            needs: plan.needs(number, session),
            commands: plan.commands(number, session).len(),
            patience: plan.patience(number, session),
        })
    }

    /// How far a job is, if there is such a job.
    pub fn standing(&self, job: usize) -> Option<Standing>
        ensures { IsStandingAt self.now job result }
    {
        if self.jobs() <= job {
            return None;
        }
        let number = JobNo(job as u8);
        let phase = self.world.job(number);
        let clock = clock_of(&self.clocks, number);
        Some(Standing {
            phase,
            sessions: self.world.plan().sessions(number),
            counts: Counts {
                meals: self.world.meals(number),
                sessions_done: self.world.sessions_done(number),
                withdrawn: self.world.withdrawn(number),
            },
            waited: waited_in(clock, phase.session),
            turns: clock.turns,
        })
    }
}
