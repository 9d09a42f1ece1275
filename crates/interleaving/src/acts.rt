//! Commands that are done: entries at the ends of logs.
ghost use Rattle.std.specs.Prelude.{◌≡◌, ℕ, ◌<◌, ◌≤◌, ◌↔◌, IsTrue, length};
ghost use Rattle.instrument_log.specs.Dial.{turned, dial};
ghost use Rattle.instrument_log.specs.Entries.{IsWithinLimits};
ghost use Rattle.instrument_log.specs.InstrumentLog.{MayAppend};
ghost use Rattle.legal_steps.specs.declared.event.Event.TheVariants.{Act};
ghost use Rattle.legal_steps.specs.declared.phase.Drinking.TheVariants.{Reaching};
ghost use Rattle.legal_steps.specs.State.{drinking, log as log_at};
ghost use Rattle.legal_steps.specs.Legal.{IsJob, May, after, next_command, next_entry, with_entry};
ghost use Rattle.legal_steps.specs.WholeLogs.{log_with_room};
ghost use Rattle.interleaving.specs.Step.{TakesNext};

use crate::tables::Tables;
use instrument_log::Entry;
use lab_plan::{InstrumentNo, JobNo, Verb};
use legal_steps::{Drinking, JobState};
use plan_logs::{next_command, next_entry};
use std::alloc::Allocator;

impl<'a, A: Allocator> Tables<'a, A> {
    pub(crate) fn may_act(&self, job: JobNo) -> bool
        ensures { IsTrue result ↔ May self.now.plan self.now.state (Act job) }
    {
        self.is_job(job) && self.phase(job).drinking == Drinking::Reaching
    }

    /// The next command of a reaching job.
    pub(crate) fn next_command(&self, job: JobNo) -> (InstrumentNo, Verb)
        requires { May self.now.plan self.now.state (Act job) }
        ensures command { result ≡ next_command self.now.plan self.now.state job }
        ensures there { result.0 < length self.now.plan.instruments }
    {
        next_command(self.plan(), job, self.phase(job))
    }

    /// The entry of the next command of a reaching job.
    #[tactic(auto, unfolding(legal_steps::specs::Legal::next_entry))]
    pub(crate) fn next_entry(&self, job: JobNo) -> Entry
        requires { May self.now.plan self.now.state (Act job) }
        ensures { result ≡ next_entry self.now.plan self.now.state job }
    {
        let (instrument, _) = self.next_command(job);
        next_entry(self.plan(), job, self.phase(job), self.log(instrument))
    }

    #[tactic(auto, unfolding(legal_steps::specs::Legal::next_entry))]
    pub(crate) fn act(&mut self, job: JobNo)
        requires may { May self.old.plan self.old.state (Act job) }
        requires takes { TakesNext self.old.plan self.old.state job }
        ensures state { self.new.state ≡ after self.old.plan self.old.state (Act job) }
        ensures plan { self.new.plan ≡ self.old.plan }
    {
        let phase = self.phase(job);
        let entry = self.next_entry(job);
        let (instrument, _) = self.next_command(job);
        self.push_entry(instrument, entry);
        let done = JobState {
            drinking: Drinking::Drinking,
            position: phase.position + 1,
            ..phase
        };
        self.set_phase(job, done);
    }
}
