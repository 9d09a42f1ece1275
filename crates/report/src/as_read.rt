//! What is shown of a run at its end, as a report reads it.
ghost use Rattle.std.specs.Prelude.{◌≡◌, ℕ, ◌<◌, length, Some, slice_get};
ghost use Rattle.lab_plan.specs.LabPlan.{LabPlan};
ghost use Rattle.report.specs.Report.{Shown, tally_of};

use crate::job_tally::JobTally;
use instrument_log::Entry;
use lab_plan::{InstrumentNo, JobNo, Plan};
use std::alloc::Allocator;

/// A run at its end: its plan, the log of each instrument, and what is told of each job.
pub trait Showing<P: Allocator> {
    /// The plan of the run.
    ghost plan: { Self → LabPlan };

    /// What is shown of it.
    ghost shown: { Self → Shown };

    /// The plan of the run.
    fn plan(&self) -> &Plan<P>
        ensures { result.now ≡ plan self.now };

    /// How many entries the log of an instrument has.
    fn entries(&self, instrument: InstrumentNo) -> usize
        requires { instrument < length (plan self.now).instruments }
        ensures { result ≡ length ((shown self.now).log instrument) };

    /// The entry of that log with `index` entries before it.
    fn entry(&self, instrument: InstrumentNo, index: usize) -> Entry
        requires is_instrument { instrument < length (plan self.now).instruments }
        requires is_entry { index < length ((shown self.now).log instrument) }
        ensures entry { slice_get ((shown self.now).log instrument) index ≡ Some result }
        ensures of_plan { result.job < length (plan self.now).jobs };

    /// What is told of a job.
    fn tally(&self, job: JobNo) -> JobTally
        requires { job < length (plan self.now).jobs }
        ensures { result ≡ tally_of (plan self.now) (shown self.now) job };
}
