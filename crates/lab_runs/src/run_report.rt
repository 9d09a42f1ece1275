//! The report of a run, and how the run has ended.
ghost use Rattle.std.specs.Prelude.{◌≡◌, ◌+◌};
ghost use Rattle.report.specs.Taken.{Sends};
ghost use Rattle.report.specs.Report.{report_of, all_retired};
ghost use Rattle.lab_program.specs.Faults.{failed_reads, failed_writes};
ghost use Rattle.lab_program.specs.Reports.{outcome_of};
ghost use Rattle.lab_runs.specs.Shown.{Shows};

use lab_program::{Outcome, RunFault, pass_on};
use report::{Showing, Sink, WriteFault, all_retired, write_report};
use std::alloc::Allocator;

/// Sends the report of a run, a line at a time, and then a flush.
fn send_report<S: Showing<P>, P: Allocator, W: Sink>(
    run: &S,
    sink: &mut W,
) -> Result<(), WriteFault>
    ensures { Sends W.taken W.failures sink.old sink.new (report_of (S.plan run.now) (S.shown run.now)) result }
{
    match write_report(run, sink) {
        Ok(()) => pass_on(sink),
        Err(fault) => Err(fault),
    }
}

/// How a run has ended: Finished if every job is retired.
fn outcome_of<S: Showing<P>, P: Allocator>(run: &S) -> Outcome
    ensures { result ≡ outcome_of (all_retired (S.plan run.now) (S.shown run.now)) }
{
    if all_retired(run) {
        Outcome::Finished
    } else {
        Outcome::Unfinished
    }
}

/// Sends the report of a run, a line at a time, and then a flush; answers how the run has ended.
pub(crate) fn show_run<S: Showing<P>, P: Allocator, W: Sink>(
    run: &S,
    sink: &mut W,
) -> Result<Outcome, RunFault>
    ensures shows { Shows (W.taken sink.old) (W.taken sink.new) (report_of (S.plan run.now) (S.shown run.now))
        (outcome_of (all_retired (S.plan run.now) (S.shown run.now))) result }
    ensures reads { failed_reads result ≡ 0 }
    ensures writes { W.failures sink.new ≡ W.failures sink.old + failed_writes result }
{
    send_report(run, sink)?;
    Ok(outcome_of(run))
}
