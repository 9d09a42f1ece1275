//! What is written: a text and then a flush.
ghost use Rattle.std.specs.Prelude.{◌≡◌, []};
ghost use Rattle.report.specs.Taken.{Sends};

use report::{Failed, Sink, WriteFault, offer};

/// Passes on what the sink took.
pub fn pass_on<W: Sink>(sink: &mut W) -> Result<(), WriteFault>
    ensures { Sends W.taken W.failures sink.old sink.new [] result }
{
    match sink.flush() {
        Ok(()) => Ok(()),
        Err(Failed) => Err(WriteFault),
    }
}

/// Sends a text.
pub fn send_text<W: Sink>(text: &[u8], sink: &mut W) -> Result<(), WriteFault>
    ensures { Sends W.taken W.failures sink.old sink.new text.now result }
{
    match offer(sink, text) {
        Ok(()) => pass_on(sink),
        Err(fault) => Err(fault),
    }
}
