//! Pictures of reports.
ghost use Rattle.std.specs.Prelude.{◌≡◌, ◌+◌};
ghost use Rattle.report.specs.Taken.{Sends};
ghost use Rattle.timeline.specs.Timelines.{IsTimeline};
ghost use Rattle.picture.specs.Picture.{picture_of};
ghost use Rattle.lab_views.specs.Pictures.{DrawsFor, failed_picture_reads, failed_picture_writes};

use crate::picture_fault::{PictureFault, for_report, for_timeline};
use lab_program::pass_on;
use picture::write_picture;
use report::{Sink, WriteFault};
use report_reader::{Report, read_report};
use std::alloc::Allocator;
use timeline::{Timeline, timeline_of};

/// Sends the picture of a report.
fn send_picture<A: Allocator, W: Sink>(
    report: &Report<'_, A>,
    timeline: &Timeline<A>,
    sink: &mut W,
) -> Result<(), WriteFault>
    requires { IsTimeline report.now timeline.now }
    ensures { Sends W.taken W.failures sink.old sink.new (picture_of report.now timeline.now) result }
{
    match write_picture(report, timeline, sink) {
        Ok(()) => pass_on(sink),
        Err(fault) => Err(fault),
    }
}

/// Writes the picture of an input.
pub(crate) fn draw_input<A: Allocator + Copy, W: Sink>(
    alloc: A,
    input: &[u8],
    sink: &mut W,
) -> Result<(), PictureFault>
    ensures answer { DrawsFor input.now (W.taken sink.old) (W.taken sink.new) result }
    ensures reads { failed_picture_reads result ≡ 0 }
    ensures writes { W.failures sink.new ≡ W.failures sink.old + failed_picture_writes result }
{
    let report = match read_report(alloc, input) {
        Ok(report) => report,
        Err(fault) => return Err(for_report(fault)),
    };
    let timeline = match timeline_of(alloc, &report) {
        Ok(timeline) => timeline,
        Err(fault) => return Err(for_timeline(fault)),
    };
    match send_picture(&report, &timeline, sink) {
        Ok(()) => Ok(()),
        Err(_) => Err(PictureFault::Write),
    }
}
