//! A journal, read as far as it has whole lines.
ghost use Rattle.std.specs.Prelude.{IfOk, IfErr};
ghost use Rattle.std.specs.List.{All};
ghost use Rattle.legal_steps.specs.Steps.{IsStepOf};
ghost use Rattle.lab_journal.specs.Resumed.{IsNotResumed};
ghost use Rattle.journal_views.specs.Journals.{IsJournal};

use interleaving::{StepLine, World};
use journal_texts::whole_lines;
use lab_journal::{read_journal, replay_text};
use lab_program::RunFault;
use script_reader::laws::one_meaning_with_steps;
use std::alloc::Global;

/// The world after the steps of a journal, and these steps. What stands behind its last whole line counts for nothing, as in a file that was cut
/// while it was written.
pub(crate) fn read_done(
    alloc: Global,
    input: &[u8],
) -> Result<(World<'static, Global>, Vec<StepLine, Global>), RunFault>
    ensures journal { IfOk result (λ r. IsJournal input.now r.0.plan r.1.items) }
    ensures own { IfOk result (λ r. All (λ line. IsStepOf r.0.plan line.step) r.1.items) }
    ensures refused { IfErr result (IsNotResumed input.now) }
{
    one_meaning_with_steps();
    let n = whole_lines(input);
    let text = &input[..n];
    let (plan, steps) = read_journal(alloc, text)?;
    let mut world = World::of_plan(alloc, plan)?;
    replay_text(&mut world, text, &steps)?;
    // The world is where its past leads, so the steps are legal.
    let _ = world.plan();
    Ok((world, steps))
}
