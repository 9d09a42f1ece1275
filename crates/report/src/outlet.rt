//! A text goes out by a loop over `write`.
ghost use Rattle.report.specs.Taken.{Sends};

use crate::sink::{Failed, Sink};

/// A write failed, and a prefix of the text went out.
#[derive(Clone, Copy, Debug, PartialEq, Eq, Drop)]
pub struct WriteFault;

/// Offers a text until all of it is taken or the sink fails.
pub fn offer<W: Sink>(sink: &mut W, text: &[u8]) -> Result<(), WriteFault>
    ensures { Sends W.taken W.failures sink.old sink.new text.now result }
{
    let mut rest = text;
    while !rest.is_empty() {
        match sink.write(rest) {
            Ok(n) => rest = &rest[n..],
            Err(Failed) => return Err(WriteFault),
        }
    }
    Ok(())
}
