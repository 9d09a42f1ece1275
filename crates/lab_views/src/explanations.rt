//! Explanations of the steps of an input.
ghost use Rattle.std.specs.Prelude.{◌≡◌, ◌+◌};
ghost use Rattle.lab_program.specs.Faults.{failed_reads, failed_writes};
ghost use Rattle.lab_program.specs.Answers.{AnswersFor};
ghost use Rattle.lab_views.specs.Views.{Explains, StepsAreRefused};

use explaining::explain;
use lab_program::{Outcome, RunFault, send_text};
use report::Sink;
use script_reader::read_steps;
use std::alloc::Allocator;

/// Writes what there is to say of a script's steps: of the first that isn't legal when its turn comes, or of their end. The outcome is
/// Finished, whichever it is.
pub(crate) fn explain_input<A: Allocator + Copy, W: Sink>(
    alloc: A,
    input: &[u8],
    sink: &mut W,
) -> Result<Outcome, RunFault>
    ensures answer { AnswersFor Explains StepsAreRefused input.now (W.taken sink.old) (W.taken sink.new) result }
    ensures reads { failed_reads result ≡ 0 }
    ensures writes { W.failures sink.new ≡ W.failures sink.old + failed_writes result }
{
    let (plan, steps) = read_steps(alloc, input)?;
    let told = explain(alloc, &plan, &steps)?;
    send_text(&told.text, sink)?;
    Ok(Outcome::Finished)
}
