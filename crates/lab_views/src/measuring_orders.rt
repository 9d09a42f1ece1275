//! A script with its jobs in the best order that was measured.
ghost use Rattle.std.specs.Prelude.{◌≡◌, ◌+◌};
ghost use Rattle.lab_program.specs.Faults.{failed_reads, failed_writes};
ghost use Rattle.lab_program.specs.Answers.{AnswersFor, ScriptRefuses};
ghost use Rattle.lab_views.specs.BestOrders.{ArrangesBest};

use lab_program::{Outcome, RunFault, send_text};
use measured_orders::{Gain, best_order};
use report::Sink;
use script_reader::read_plan;
use std::alloc::Allocator;

/// Writes a script with its jobs in the best order of those that were tried, each measured by the run of the script in that order by at
/// most this many rounds. What was gained is reported in `gain`.
///
/// The order as it is and that of `arrange` are among them, and up to 398 orders near to the better of these. Lines and comments
/// move as in `arrange`, and a script whose own order is the best goes out as it came. The same input and number of rounds give the
/// same text. If `arrange` ends with Unfinished, so does this, and it reports nothing in `gain`.
pub(crate) fn arrange_measured<A: Allocator + Copy, W: Sink>(
    alloc: A,
    input: &[u8],
    sink: &mut W,
    limit: u32,
    gain: &mut Option<Gain>,
) -> Result<Outcome, RunFault>
    ensures answer { AnswersFor (ArrangesBest limit gain.new) ScriptRefuses input.now (W.taken sink.old) (W.taken sink.new) result }
    ensures reads { failed_reads result ≡ 0 }
    ensures writes { W.failures sink.new ≡ W.failures sink.old + failed_writes result }
{
    *gain = None;
    let plan = read_plan(alloc, input)?;
    let found = best_order(alloc, &plan, input, limit)?;
    match found {
        Some(best) => {
            *gain = Some(best.gain());
            send_text(best.text(), sink)?;
            Ok(Outcome::Finished)
        }
        None => {
            send_text(input, sink)?;
            Ok(Outcome::Unfinished)
        }
    }
}
