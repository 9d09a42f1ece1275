//! A run by rounds, as the rounds of its sessions and meals.
ghost use Rattle.std.specs.Prelude.{◌≡◌, ◌<◌, length, map};
ghost use Rattle.waiting.specs.Waits.{job_of};
ghost use Rattle.waiting.specs.Watching.{told};

use crate::job_log::JobLog;
use crate::session::{Meal, Session};
use lab_plan::JobNo;
use std::alloc::{Allocator, Global};
use std::marker::Model;

/// What became of the sessions and meals of a plan's jobs in a run by rounds.
#[derive(Drop)]
pub struct RoundsRun<A: Allocator = Global> {
    pub(crate) number: u32,
    pub(crate) retired: bool,
    pub(crate) logs: Vec<JobLog<A>, A>,
}

impl<A: Allocator> Model for RoundsRun<A> {
    ghost use Rattle.std.specs.Prelude.{map};
    ghost use Rattle.waiting.specs.Waits.{RunView};
    ghost use Rattle.waiting.specs.Watching.{told};

    ghost Value = { RunView };

    ghost view = { λ r. record { number = r.number; retired = r.retired; jobs = map told r.logs.items } };
}

impl<A: Allocator> RoundsRun<A> {
    /// A run of this many rounds, by what was noted of each job.
    pub fn new(number: u32, retired: bool, logs: Vec<JobLog<A>, A>) -> RoundsRun<A>
        ensures { result ≡ record { number = number; retired = retired; jobs = map told logs.items } }
    {
        RoundsRun {
            number,
            retired,
            logs,
        }
    }

    /// How many rounds were done.
    pub fn rounds(&self) -> u32
        ensures { result ≡ self.now.number }
    {
        self.number
    }

    /// Whether all jobs are retired then.
    pub fn retired(&self) -> bool
        ensures { result ≡ self.now.retired }
    {
        self.retired
    }

    /// The sessions that a job began, in their order.
    pub fn sessions(&self, job: JobNo) -> &[Session]
        requires { job < length self.now.jobs }
        ensures { result.now ≡ (job_of self.now job).sessions }
    {
        self.logs[job.0 as usize].sessions()
    }

    /// The meals that it wanted.
    pub fn meals(&self, job: JobNo) -> &[Meal]
        requires { job < length self.now.jobs }
        ensures { result.now ≡ (job_of self.now job).meals }
    {
        self.logs[job.0 as usize].meals()
    }
}
