//! A script with its jobs in another order, in which chains at the start are short.
ghost use Rattle.std.specs.Prelude.{◌≡◌, ◌+◌};
ghost use Rattle.lab_program.specs.Faults.{failed_reads, failed_writes};
ghost use Rattle.lab_program.specs.Answers.{AnswersFor, ScriptRefuses};
ghost use Rattle.lab_views.specs.Arranged.{Arranges};

use arranged_scripts::arranged_script;
use lab_program::{Outcome, RunFault, send_text};
use report::Sink;
use script_reader::read_plan;
use std::alloc::Allocator;

/// Writes a script with its jobs in an order in which chains of precedence are short at the start: jobs that share an instrument get
/// different colours, and jobs stand in the order of their colours.
///
/// Lines and comments stay with their job: its block begins at the comments directly above its line, and the lines above the first
/// block stay first. The last line may lack its end, which it gets. The outcome is Unfinished if the text would be longer than
/// 16777216 bytes with this end, or if what was made isn't read as the same jobs, which has never been seen: then the input goes out
/// as it was.
pub(crate) fn arrange_input<A: Allocator + Copy, W: Sink>(
    alloc: A,
    input: &[u8],
    sink: &mut W,
) -> Result<Outcome, RunFault>
    ensures answer { AnswersFor Arranges ScriptRefuses input.now (W.taken sink.old) (W.taken sink.new) result }
    ensures reads { failed_reads result ≡ 0 }
    ensures writes { W.failures sink.new ≡ W.failures sink.old + failed_writes result }
{
    let plan = read_plan(alloc, input)?;
    let made = arranged_script(alloc, &plan, input)?;
    match made {
        Some(text) => {
            send_text(&text, sink)?;
            Ok(Outcome::Finished)
        }
        None => {
            send_text(input, sink)?;
            Ok(Outcome::Unfinished)
        }
    }
}
