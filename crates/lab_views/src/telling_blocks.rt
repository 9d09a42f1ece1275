//! Who keeps whom waiting in a script's run by rounds.
ghost use Rattle.std.specs.Prelude.{◌≡◌, ◌+◌, IfOk};
ghost use Rattle.std.specs.List.{All};
ghost use Rattle.block_lines.specs.Text.{IsOfPlan, blocks_text};
ghost use Rattle.lab_program.specs.Faults.{failed_reads, failed_writes};
ghost use Rattle.lab_program.specs.Answers.{AnswersFor, ScriptRefuses};
ghost use Rattle.lab_views.specs.Blocks.{TellsBlocks};

use block_lines::add_blocks;
use blocking::{BlockedRun, blocks_by_rounds};
use lab_plan::Plan;
use lab_program::{Outcome, RunFault, send_text};
use report::Sink;
use script_reader::read_plan;
use std::alloc::{AllocError, Allocator};

/// The whole text.
fn blocks_of<A: Allocator + Copy>(
    alloc: A,
    plan: &Plan<A>,
    run: &BlockedRun<A>,
) -> Result<Vec<u8, A>, AllocError>
    requires { All (IsOfPlan plan.now) run.now.blocks }
    ensures { IfOk result (λ text. text.items ≡ blocks_text plan.now run.now.number run.now.retired run.now.blocks) }
{
    let mut text = Vec::new(alloc);
    add_blocks(
        alloc,
        &mut text,
        plan,
        run.rounds(),
        run.retired(),
        run.blocks(),
    )?;
    Ok(text)
}

/// Writes which job kept which waiting for which instrument in a script's run by at most this many rounds, in how many rounds, and in how
/// many of these it held the instrument.
///
/// Memory grows with the instruments that pairs of jobs have in common, not with the rounds. The outcome is Finished, whether or not
/// all jobs are retired then.
pub(crate) fn blocks_input<A: Allocator + Copy, W: Sink>(
    alloc: A,
    input: &[u8],
    sink: &mut W,
    limit: u32,
) -> Result<Outcome, RunFault>
    ensures answer { AnswersFor (TellsBlocks limit) ScriptRefuses input.now (W.taken sink.old) (W.taken sink.new) result }
    ensures reads { failed_reads result ≡ 0 }
    ensures writes { W.failures sink.new ≡ W.failures sink.old + failed_writes result }
{
    let plan = read_plan(alloc, input)?;
    let run = blocks_by_rounds(alloc, &plan, limit)?;
    let text = blocks_of(alloc, &plan, &run)?;
    send_text(&text, sink)?;
    Ok(Outcome::Finished)
}
