//! A command, and a session that is given up.
ghost use Rattle.legal_steps.specs.Legal.{IsJob};
ghost use Rattle.live_lab.specs.Calls.{AtJob, Withdraws, Commands};

use crate::lab::Lab;
use crate::steps::{do_act, step};
use instrument_log::Entry;
use lab_plan::JobNo;
use legal_steps::Event;
use plan_logs::{next_command, next_entry};
use settling::wake_self;

impl Lab {
    fn withdraw_of(&mut self, job: JobNo) -> bool
        requires { IsJob self.old.world.plan job }
        ensures { Withdraws job self.old result self.new }
    {
        if self.place_outside(job).is_some() {
            self.line.leave(job.0 as usize);
            return true;
        }
        if !self.world.enabled(Event::Withdraw(job)) {
            return false;
        }
        step(&mut self.world, Event::Withdraw(job));
        wake_self(self.world.plan(), &mut self.due, job);
        true
    }

    fn command_of(&mut self, job: JobNo) -> Option<Entry>
        requires { IsJob self.old.world.plan job }
        ensures { Commands job self.old result self.new }
    {
        if !self.world.enabled(Event::Reach(job)) {
            return None;
        }
        let phase = self.world.job(job);
        let (instrument, _) = next_command(self.world.plan(), job, phase);
        let entry = next_entry(self.world.plan(), job, phase, self.world.log(instrument));
        do_act(&mut self.world, &Event::Reach(job));
        wake_self(self.world.plan(), &mut self.due, job);
        Some(entry)
    }

    /// A job that waits outside doesn't any more; of another one the session that it waits for is given up, if there is such a job. Answers whether it
    /// was: only a session that has a patience can be given up.
    pub fn withdraw(&mut self, job: usize) -> Option<bool>
        ensures { AtJob Withdraws job self.old result self.new }
    {
        if self.jobs() <= job {
            return None;
        }
        Some(self.withdraw_of(JobNo(job as u8)))
    }

    /// Does the next command of a job, if there is such a job. Answers its entry, or nothing if the job doesn't hold or has no command left.
    pub fn command(&mut self, job: usize) -> Option<Option<Entry>>
        ensures { AtJob Commands job self.old result self.new }
    {
        if self.jobs() <= job {
            return None;
        }
        Some(self.command_of(JobNo(job as u8)))
    }
}
