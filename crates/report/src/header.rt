//! The first line of reports and scripts.
ghost use Rattle.lab_plan.specs.Texts.{header_line};
ghost use Rattle.report.specs.Taken.{Sends};

use crate::lines::header_line;
use crate::outlet::{WriteFault, offer};
use crate::sink::Sink;

/// The header of a version.
pub(crate) fn write_header<W: Sink>(version: u8, sink: &mut W) -> Result<(), WriteFault>
    ensures { Sends W.taken W.failures sink.old sink.new (header_line version) result }
{
    let line = header_line(version);
    offer(sink, line.as_bytes())
}
