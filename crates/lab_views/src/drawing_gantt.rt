//! The picture over time of a script's run by rounds.
ghost use Rattle.std.specs.Prelude.{◌≡◌, ◌+◌, IfOk};
ghost use Rattle.blocking.specs.Keepers.{IsKeptOf};
ghost use Rattle.round_picture.specs.Gantt.{gantt_of};
ghost use Rattle.lab_program.specs.Faults.{failed_reads, failed_writes};
ghost use Rattle.lab_program.specs.Answers.{AnswersFor, ScriptRefuses};
ghost use Rattle.lab_views.specs.Gantts.{DrawsRun};

use blocking::{KeptRun, keepers_by_rounds};
use lab_plan::Plan;
use lab_program::{Outcome, RunFault, send_text};
use report::Sink;
use round_picture::add_gantt;
use script_reader::read_plan;
use std::alloc::{AllocError, Allocator};

/// The whole text.
fn text_of<A: Allocator>(
    alloc: A,
    plan: &Plan<A>,
    run: &KeptRun<A>,
) -> Result<Vec<u8, A>, AllocError>
    requires { IsKeptOf plan.now run.now }
    ensures { IfOk result (λ text. text.items ≡ gantt_of plan.now run.now) }
{
    let mut text = Vec::new(alloc);
    add_gantt(&mut text, plan, run)?;
    Ok(text)
}

/// Draws the run of a script over time: who waits when, for whom, and who holds instruments.
///
/// Memory grows with the sessions of the script and with the instruments that pairs of jobs have in common, not with the rounds. The
/// outcome is Finished, whether or not all jobs are retired then.
pub(crate) fn draw_run<A: Allocator + Copy, W: Sink>(
    alloc: A,
    input: &[u8],
    sink: &mut W,
    limit: u32,
) -> Result<Outcome, RunFault>
    ensures answer { AnswersFor (DrawsRun limit) ScriptRefuses input.now (W.taken sink.old) (W.taken sink.new) result }
    ensures reads { failed_reads result ≡ 0 }
    ensures writes { W.failures sink.new ≡ W.failures sink.old + failed_writes result }
{
    let plan = read_plan(alloc, input)?;
    let run = keepers_by_rounds(alloc, &plan, limit)?;
    let text = text_of(alloc, &plan, &run)?;
    send_text(&text, sink)?;
    Ok(Outcome::Finished)
}
