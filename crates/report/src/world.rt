//! The report of a world.
ghost use Rattle.std.specs.Prelude.{◌≡◌, ℕ, ◌<◌, length};
ghost use Rattle.std.specs.List.{All};
ghost use Rattle.legal_steps.specs.State.{log};
ghost use Rattle.report.specs.Taken.{Sends};
ghost use Rattle.report.specs.Report.{report_of};
ghost use Rattle.report.specs.Worlds.{shown_by};

use crate::as_read::Showing;
use crate::job_tally::JobTally;
use crate::outlet::WriteFault;
use crate::shown::write_report;
use crate::sink::Sink;
use instrument_log::{Entry, InstrumentLog};
use interleaving::{Drinking, World};
use lab_plan::{InstrumentNo, JobNo, Plan};
use legal_steps::log_laws::whole_logs;
use std::alloc::Allocator;

/// The log of an instrument, each of whose entries is of a job of the plan.
fn log_of<'w, A: Allocator>(
    world: &'w World<'_, A>,
    instrument: InstrumentNo,
) -> &'w InstrumentLog<A>
    requires { instrument < length world.now.plan.instruments }
    ensures log { result.now.entries ≡ log world.now.state instrument }
    ensures of_plan { All (λ entry. entry.job < length world.now.plan.jobs) result.now.entries }
{
    // The world is reached, so its logs are made of parts of the plan's sessions.
    let _ = world.plan();
    whole_logs();
    world.log(instrument)
}

impl<'a, A: Allocator> Showing<A> for World<'a, A> {
    ghost plan = { λ world. world.plan };

    ghost shown = { shown_by };

    fn plan(&self) -> &Plan<A> {
        World::plan(self)
    }

    fn entries(&self, instrument: InstrumentNo) -> usize {
        self.log(instrument).len()
    }

    fn entry(&self, instrument: InstrumentNo, index: usize) -> Entry {
        log_of(self, instrument).entry(index)
    }

    fn tally(&self, job: JobNo) -> JobTally {
        JobTally {
            sessions: World::plan(self).sessions(job),
            done: self.sessions_done(job),
            withdrawn: self.withdrawn(job),
            meals: self.meals(job),
            is_retired: matches!(self.job(job).drinking, Drinking::Retired),
        }
    }
}

/// Writes the report of a world, one line at a time. Takes no memory, and doesn't flush.
pub fn write_world<A: Allocator, W: Sink>(
    world: &World<'_, A>,
    sink: &mut W,
) -> Result<(), WriteFault>
    ensures { Sends W.taken W.failures sink.old sink.new (report_of world.now.plan (shown_by world.now)) result }
{
    write_report(world, sink)
}
