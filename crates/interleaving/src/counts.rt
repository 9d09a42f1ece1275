//! What each job has done so far.
ghost use Rattle.std.specs.Prelude.{◌≡◌, ◌<◌, length, replicate, IfOk};
ghost use Rattle.legal_steps.specs.Counting.{no_counts};
ghost use Rattle.interleaving.specs.Counting.{count_at, counted, CanCount};

use lab_plan::JobNo;
use legal_steps::{Counts, Event, NO_COUNTS};
use std::alloc::{AllocError, Allocator, Global};
use std::marker::Model;

#[derive(Drop)]
pub(crate) struct JobCounts<A: Allocator = Global> {
    counts: Vec<Counts, A>,
}

impl<A: Allocator> Model for JobCounts<A> {
    ghost use Rattle.std.specs.Prelude.{List};
    ghost use Rattle.legal_steps.specs.declared.counts.Counts.{Counts};

    ghost Value = { List Counts };

    ghost view = { λ t. t.counts.items };
}

impl<A: Allocator> JobCounts<A> {
    /// No counts yet, of this many jobs.
    pub(crate) fn new(alloc: A, jobs: usize) -> Result<JobCounts<A>, AllocError>
        ensures { IfOk result (λ tally. tally ≡ replicate jobs no_counts) }
    {
        let mut counts = Vec::new(alloc);
        for _job in 0..jobs {
            counts.push(NO_COUNTS)?;
        }
        Ok(JobCounts { counts })
    }

    pub(crate) fn at(&self, job: JobNo) -> Counts
        requires { job < length self.now }
        ensures { result ≡ count_at self.now job }
    {
        self.counts[job.0 as usize]
    }

    /// Counts an event of one of the jobs.
    pub(crate) fn count(&mut self, event: &Event)
        requires { CanCount event.now self.old }
        ensures { self.new ≡ counted event.now self.old }
    {
        match *event {
            Event::Sit(job) => self.counts[job.0 as usize].meals += 1,
            Event::Quit(job) => self.counts[job.0 as usize].sessions_done += 1,
            Event::Withdraw(job) => self.counts[job.0 as usize].withdrawn += 1,
            _ => (),
        }
    }
}
