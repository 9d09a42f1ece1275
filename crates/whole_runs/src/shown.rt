//! The report of a bench that was closed, whoever drove it.
ghost use Rattle.std.specs.Prelude.{◌≡◌, ◌<◌, length};
ghost use Rattle.std.specs.List.{All};
ghost use Rattle.edge_rule.specs.ClosedView.{log_in};
ghost use Rattle.report.specs.Taken.{Sends};
ghost use Rattle.report.specs.Report.{report_of};
ghost use Rattle.whole_runs.specs.Shown.{shown_in};

use edge_rule::Closed;
use instrument_log::{Entry, InstrumentLog};
use lab_plan::{InstrumentNo, JobNo, Plan};
use legal_steps::Drinking;
use legal_steps::log_laws::whole_logs;
use report::{JobTally, Showing, Sink, WriteFault};
use std::alloc::{Allocator, Global};

/// The log of an instrument, each of whose entries is of a job of the plan.
fn log_of<'c, A: Allocator>(
    closed: &'c Closed<'_, A>,
    instrument: InstrumentNo,
) -> &'c InstrumentLog<A>
    requires { instrument < length closed.now.plan.instruments }
    ensures log { result.now ≡ log_in closed.now instrument }
    ensures of_plan { All (λ entry. entry.job < length closed.now.plan.jobs) result.now.entries }
{
    // A closed bench has had a legal list of events, so its logs are made of parts of the plan's sessions.
    whole_logs();
    closed.log(instrument)
}

/// What a closed bench shows, as the calls of `report` take it. (`Closed` can't be `Showing` itself: each is of another crate.)
#[derive(Drop)]
pub struct AtEnd<'c, 'p, A: Allocator = Global> {
    pub closed: &'c Closed<'p, A>,
}

impl<'c, 'p, A: Allocator> Showing<A> for AtEnd<'c, 'p, A> {
    ghost use Rattle.whole_runs.specs.Shown.{shown_in};

    ghost plan = { λ end. end.closed.now.plan };

    ghost shown = { λ end. shown_in end.closed.now };

    fn plan(&self) -> &Plan<A> {
        self.closed.plan()
    }

    fn entries(&self, instrument: InstrumentNo) -> usize {
        self.closed.log(instrument).len()
    }

    fn entry(&self, instrument: InstrumentNo, index: usize) -> Entry {
        log_of(self.closed, instrument).entry(index)
    }

    fn tally(&self, job: JobNo) -> JobTally {
        JobTally {
            sessions: self.closed.plan().sessions(job),
            done: self.closed.sessions_done(job),
            withdrawn: self.closed.withdrawn(job),
            meals: self.closed.meals(job),
            is_retired: matches!(self.closed.phase(job).drinking(), Drinking::Retired),
        }
    }
}

/// Writes the report of a closed bench, one line at a time. Takes no memory, and doesn't flush.
pub fn write_report<A: Allocator, W: Sink>(
    closed: &Closed<'_, A>,
    sink: &mut W,
) -> Result<(), WriteFault>
    ensures { Sends W.taken W.failures sink.old sink.new (report_of closed.now.plan (shown_in closed.now)) result }
{
    report::write_report(&AtEnd { closed }, sink)
}
