//! From the bytes of a journal to what is written of it.
ghost use Rattle.std.specs.Prelude.{◌≡◌, ◌+◌};
ghost use Rattle.lab_program.specs.Input.{ConsumesUpTo};
ghost use Rattle.lab_program.specs.Faults.{failed_reads, failed_writes};
ghost use Rattle.lab_program.specs.Answers.{AnswersFor};
ghost use Rattle.lab_journal.specs.Resumed.{IsNotResumed};
ghost use Rattle.journal_views.specs.Journals.{WritesScript, WritesSteps, ScriptAnswers, StepsAnswers};

use crate::done::read_done;
use crate::sinks::{lines_of, send_script, send_steps};
use lab_program::{Outcome, RunFault, Source, read_input};
use report::Sink;
use script_reader::upgrade_law::upgrade_means_plan;
use std::alloc::Global;
use written_steps::laws::list_is_read_back;

/// Writes the script that the lab of a journal has become.
fn write_script_of<W: Sink>(alloc: Global, input: &[u8], sink: &mut W) -> Result<Outcome, RunFault>
    ensures answer { AnswersFor WritesScript IsNotResumed input.now (W.taken sink.old) (W.taken sink.new) result }
    ensures reads { failed_reads result ≡ 0 }
    ensures writes { W.failures sink.new ≡ W.failures sink.old + failed_writes result }
{
    let (world, _steps) = read_done(alloc, input)?;
    upgrade_means_plan();
    send_script(world.plan(), sink)?;
    Ok(Outcome::Finished)
}

/// Writes this script with each step of a journal.
fn write_steps_of<W: Sink>(alloc: Global, input: &[u8], sink: &mut W) -> Result<Outcome, RunFault>
    ensures answer { AnswersFor WritesSteps IsNotResumed input.now (W.taken sink.old) (W.taken sink.new) result }
    ensures reads { failed_reads result ≡ 0 }
    ensures writes { W.failures sink.new ≡ W.failures sink.old + failed_writes result }
{
    let (world, steps) = read_done(alloc, input)?;
    upgrade_means_plan();
    list_is_read_back();
    let lines = lines_of(alloc, world.plan(), &steps)?;
    send_steps(world.plan(), &lines, sink)?;
    Ok(Outcome::Finished)
}

/// Reads a journal and writes the script that its lab has become, with the sessions that came, each behind its job's others. It is of version 2,
/// and `labrun` reads it. All steps are done again, and all sums are looked at, before anything goes out. A script without steps is a journal too.
/// The outcome is Finished.
pub fn run_script<R: Source, W: Sink>(
    alloc: Global,
    source: &mut R,
    sink: &mut W,
) -> Result<Outcome, RunFault>
    ensures answer { ScriptAnswers (R.left source.old) (W.taken sink.old) (W.taken sink.new) result }
    ensures most { ConsumesUpTo (R.left source.old) (R.left source.new) 16777217 }
    ensures reads { R.failures source.new ≡ R.failures source.old + failed_reads result }
    ensures writes { W.failures sink.new ≡ W.failures sink.old + failed_writes result }
{
    let input = read_input(alloc, source)?;
    write_script_of(alloc, &input, sink)
}

/// Reads a journal and writes the same script with a line `steps` and each step that was done, for `labrun replay`. No line is longer than it was in
/// the journal, but that isn't proved.
pub fn run_steps<R: Source, W: Sink>(
    alloc: Global,
    source: &mut R,
    sink: &mut W,
) -> Result<Outcome, RunFault>
    ensures answer { StepsAnswers (R.left source.old) (W.taken sink.old) (W.taken sink.new) result }
    ensures most { ConsumesUpTo (R.left source.old) (R.left source.new) 16777217 }
    ensures reads { R.failures source.new ≡ R.failures source.old + failed_reads result }
    ensures writes { W.failures sink.new ≡ W.failures sink.old + failed_writes result }
{
    let input = read_input(alloc, source)?;
    write_steps_of(alloc, &input, sink)
}
