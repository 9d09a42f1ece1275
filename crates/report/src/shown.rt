//! The report of a run, a line at a time.
ghost use Rattle.std.specs.Prelude.{◌≡◌, ℕ, ◌<◌, length};
ghost use Rattle.std.specs.List.{flat_map};
ghost use Rattle.lab_plan.specs.Texts.{instrument_name};
ghost use Rattle.report.specs.Taken.{Sends};
ghost use Rattle.report.specs.Report.{instrument_line, entry_text, log_text, tally_text, all_retired, last_line, report_of, jobs, instruments};

use crate::as_read::Showing;
use crate::header::write_header;
use crate::lines::{TextLine, add_entry, instrument_line, job_line};
use crate::outlet::{WriteFault, offer};
use crate::sink::Sink;
use instrument_log::Entry;
use lab_plan::{InstrumentNo, JobNo};
use std::alloc::Allocator;

/// An instrument, with the number of its entries.
fn write_instrument<R: Showing<P>, P: Allocator, W: Sink>(
    run: &R,
    instrument: InstrumentNo,
    sink: &mut W,
) -> Result<(), WriteFault>
    requires { instrument < length (R.plan run.now).instruments }
    ensures { Sends W.taken W.failures sink.old sink.new
        (instrument_line (instrument_name (R.plan run.now) instrument) (length ((R.shown run.now).log instrument))) result }
{
    let name = run.plan().instrument_name(instrument);
    let line = instrument_line(name, run.entries(instrument));
    offer(sink, line.as_bytes())
}

/// An entry of a log, in place of what the line had.
fn write_entry<R: Showing<P>, P: Allocator, W: Sink>(
    run: &R,
    entry: Entry,
    line: &mut TextLine,
    sink: &mut W,
) -> Result<(), WriteFault>
    requires { entry.job < length (R.plan run.now).jobs }
    ensures { Sends W.taken W.failures sink.old sink.new (entry_text (R.plan run.now) entry) result }
{
    line.clear();
    add_entry(line, run.plan().job_name(entry.job), &entry);
    offer(sink, line.as_bytes())
}

/// The entries of an instrument in the order of its log.
fn write_entries<R: Showing<P>, P: Allocator, W: Sink>(
    run: &R,
    instrument: InstrumentNo,
    sink: &mut W,
) -> Result<(), WriteFault>
    requires { instrument < length (R.plan run.now).instruments }
    ensures { Sends W.taken W.failures sink.old sink.new (flat_map (entry_text (R.plan run.now)) ((R.shown run.now).log instrument)) result }
{
    let mut line = TextLine::new();
    for index in 0..run.entries(instrument) {
        write_entry(run, run.entry(instrument, index), &mut line, sink)?;
    }
    Ok(())
}

/// An instrument: its line, and its entries.
fn write_log<R: Showing<P>, P: Allocator, W: Sink>(
    run: &R,
    instrument: InstrumentNo,
    sink: &mut W,
) -> Result<(), WriteFault>
    requires { instrument < length (R.plan run.now).instruments }
    ensures { Sends W.taken W.failures sink.old sink.new (log_text (R.plan run.now) (R.shown run.now) instrument) result }
{
    write_instrument(run, instrument, sink)?;
    write_entries(run, instrument, sink)
}

/// The instruments in order, each with its log.
fn write_logs<R: Showing<P>, P: Allocator, W: Sink>(run: &R, sink: &mut W) -> Result<(), WriteFault>
    ensures { Sends W.taken W.failures sink.old sink.new (flat_map (log_text (R.plan run.now) (R.shown run.now)) (instruments (R.plan run.now))) result }
{
    for instrument in 0..run.plan().instruments() {
        write_log(run, InstrumentNo(instrument as u8), sink)?;
    }
    Ok(())
}

/// What is told of a job.
fn write_tally<R: Showing<P>, P: Allocator, W: Sink>(
    run: &R,
    job: JobNo,
    sink: &mut W,
) -> Result<(), WriteFault>
    requires { job < length (R.plan run.now).jobs }
    ensures { Sends W.taken W.failures sink.old sink.new (tally_text (R.plan run.now) (R.shown run.now) job) result }
{
    let plan = run.plan();
    let line = job_line(plan.version(), plan.job_name(job), run.tally(job));
    offer(sink, line.as_bytes())
}

/// What is told of the jobs, in order.
fn write_tallies<R: Showing<P>, P: Allocator, W: Sink>(
    run: &R,
    sink: &mut W,
) -> Result<(), WriteFault>
    ensures { Sends W.taken W.failures sink.old sink.new (flat_map (tally_text (R.plan run.now) (R.shown run.now)) (jobs (R.plan run.now))) result }
{
    for job in 0..run.plan().jobs() {
        write_tally(run, JobNo(job as u8), sink)?;
    }
    Ok(())
}

/// Whether every job is retired.
pub fn all_retired<R: Showing<P>, P: Allocator>(run: &R) -> bool
    ensures { result ≡ all_retired (R.plan run.now) (R.shown run.now) }
{
    for job in 0..run.plan().jobs() {
        if !run.tally(JobNo(job as u8)).is_retired {
            return false;
        }
    }
    true
}

/// `finished` if every job is retired, else `unfinished`.
fn write_last<W: Sink>(is_finished: bool, sink: &mut W) -> Result<(), WriteFault>
    ensures { Sends W.taken W.failures sink.old sink.new (last_line is_finished) result }
{
    if is_finished {
        offer(sink, b"finished\n")
    } else {
        offer(sink, b"unfinished\n")
    }
}

/// Writes the report of a run, one line at a time. Takes no memory, and doesn't flush.
pub fn write_report<R: Showing<P>, P: Allocator, W: Sink>(
    run: &R,
    sink: &mut W,
) -> Result<(), WriteFault>
    ensures { Sends W.taken W.failures sink.old sink.new (report_of (R.plan run.now) (R.shown run.now)) result }
{
    write_header(run.plan().version(), sink)?;
    write_logs(run, sink)?;
    write_tallies(run, sink)?;
    write_last(all_retired(run), sink)
}
