//! The picture of a report, a line at a time.
ghost use Rattle.std.specs.Prelude.{◌≡◌, ◌<◌, ◌≤◌, length, map, codes};
ghost use Rattle.std.specs.List.{flat_map, range_with_len};
ghost use Rattle.lab_plan.specs.Limits.{most_jobs, most_instruments};
ghost use Rattle.report.specs.Taken.{Sends};
ghost use Rattle.report_reader.specs.Form.{entry_text, job_text};
ghost use Rattle.timeline.specs.Timelines.{IsTimeline};
ghost use Rattle.picture.specs.Picture.{entries_text, log_at, job_at, picture_of};
ghost use Rattle.picture.specs.Tables.{head_text, row_text, job_line, end_text};

use crate::tables::{end_line, head_line, job_line, row_line};
use crate::ticks::entry_at;
use report::{Sink, WriteFault, offer};
use report_reader::{EntryLine, JobLine, Report};
use std::alloc::Allocator;
use timeline::{Span, Timeline};

/// The entries of a log.
fn write_entries<W: Sink>(
    jobs: &[JobLine],
    columns: u32,
    spans: &[Span],
    entries: &[EntryLine],
    sink: &mut W,
) -> Result<(), WriteFault>
    ensures { Sends W.taken W.failures sink.old sink.new (entries_text (map job_text jobs.now) columns spans.now (map entry_text entries.now)) result }
{
    for place in 0..entries.len() {
        let line = entry_at(jobs, columns, spans, entries, place);
        offer(sink, line.as_bytes())?;
    }
    Ok(())
}

/// The row of an instrument.
fn write_log<A: Allocator, B: Allocator, W: Sink>(
    report: &Report<'_, A>,
    timeline: &Timeline<B>,
    number: usize,
    sink: &mut W,
) -> Result<(), WriteFault>
    requires few_instruments { length report.now.logs ≤ most_instruments }
    requires inside { number < length report.now.logs }
    ensures { Sends W.taken W.failures sink.old sink.new (log_at report.now timeline.now number) result }
{
    let log = &report.logs()[number];
    let columns = timeline.columns();
    let head = row_line(number, log.name(), columns);
    offer(sink, head.as_bytes())?;
    write_entries(
        report.jobs(),
        columns,
        timeline.spans(),
        log.entries(),
        sink,
    )?;
    offer(sink, b"</g>\n")
}

/// The rows of the instruments.
fn write_logs<A: Allocator, B: Allocator, W: Sink>(
    report: &Report<'_, A>,
    timeline: &Timeline<B>,
    sink: &mut W,
) -> Result<(), WriteFault>
    requires { length report.now.logs ≤ most_instruments }
    ensures { Sends W.taken W.failures sink.old sink.new (flat_map (log_at report.now timeline.now) (range_with_len 0 (length report.now.logs))) result }
{
    for number in 0..report.logs().len() {
        write_log(report, timeline, number, sink)?;
    }
    Ok(())
}

/// A line of the table of jobs.
fn write_job<A: Allocator, W: Sink>(
    report: &Report<'_, A>,
    number: usize,
    sink: &mut W,
) -> Result<(), WriteFault>
    requires few_instruments { length report.now.logs ≤ most_instruments }
    requires few_jobs { length report.now.jobs ≤ most_jobs }
    requires inside { number < length report.now.jobs }
    ensures { Sends W.taken W.failures sink.old sink.new (job_at report.now number) result }
{
    let line = job_line(report.logs().len(), number, &report.jobs()[number]);
    offer(sink, line.as_bytes())
}

/// The table of jobs.
fn write_jobs<A: Allocator, W: Sink>(report: &Report<'_, A>, sink: &mut W) -> Result<(), WriteFault>
    requires few_instruments { length report.now.logs ≤ most_instruments }
    requires few_jobs { length report.now.jobs ≤ most_jobs }
    ensures { Sends W.taken W.failures sink.old sink.new (flat_map (job_at report.now) (range_with_len 0 (length report.now.jobs))) result }
{
    for number in 0..report.jobs().len() {
        write_job(report, number, sink)?;
    }
    Ok(())
}

/// Writes the picture of a report, one line at a time. Takes no memory, and doesn't flush.
pub fn write_picture<A: Allocator, B: Allocator, W: Sink>(
    report: &Report<'_, A>,
    timeline: &Timeline<B>,
    sink: &mut W,
) -> Result<(), WriteFault>
    requires { IsTimeline report.now timeline.now }
    ensures { Sends W.taken W.failures sink.old sink.new (picture_of report.now timeline.now) result }
{
    let instruments = report.logs().len();
    let jobs = report.jobs().len();
    let head = head_line(instruments, jobs, timeline.columns());
    offer(sink, head.as_bytes())?;
    write_logs(report, timeline, sink)?;
    write_jobs(report, sink)?;
    let end = end_line(instruments, jobs, report.is_finished());
    offer(sink, end.as_bytes())
}
