//! Tables of reports.
ghost use Rattle.std.specs.Prelude.{◌≡◌, ◌+◌};
ghost use Rattle.lab_views.specs.Pictures.{failed_picture_reads, failed_picture_writes};
ghost use Rattle.lab_views.specs.Tables.{TabulatesFor};

use crate::picture_fault::{PictureFault, for_report};
use lab_program::send_text;
use picture::table_of;
use report::Sink;
use report_reader::read_report;
use std::alloc::Allocator;

/// Writes the table of an input.
pub(crate) fn tabulate_input<A: Allocator + Copy, W: Sink>(
    alloc: A,
    input: &[u8],
    sink: &mut W,
) -> Result<(), PictureFault>
    ensures answer { TabulatesFor input.now (W.taken sink.old) (W.taken sink.new) result }
    ensures reads { failed_picture_reads result ≡ 0 }
    ensures writes { W.failures sink.new ≡ W.failures sink.old + failed_picture_writes result }
{
    let report = match read_report(alloc, input) {
        Ok(report) => report,
        Err(fault) => return Err(for_report(fault)),
    };
    let Ok(text) = table_of(alloc, &report) else {
        return Err(PictureFault::NoMemory);
    };
    match send_text(&text, sink) {
        Ok(()) => Ok(()),
        Err(_) => Err(PictureFault::Write),
    }
}
