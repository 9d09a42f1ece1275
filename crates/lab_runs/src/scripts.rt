//! What the program does with a script alone: check it, upgrade it.
ghost use Rattle.std.specs.Prelude.{◌≡◌, ◌+◌};
ghost use Rattle.lab_program.specs.Input.{ConsumesUpTo};
ghost use Rattle.lab_program.specs.Faults.{failed_reads, failed_writes};
ghost use Rattle.lab_program.specs.Answers.{AnswersFor, ScriptRefuses};
ghost use Rattle.lab_runs.specs.Scripts.{Checks, CheckAnswers, Upgrades, UpgradeAnswers, UpgradeIsStable};

use crate::counts::counts_line;
use crate::upgrade_text::send_script;
use lab_program::{Outcome, RunFault, Source, read_input, send_text};
use report::Sink;
use script_reader::laws::one_meaning;
use script_reader::read_plan;
use script_reader::upgrade_law::{upgrade_is_short, upgrade_means_plan};
use std::alloc::Allocator;

/// Writes the counts of an input.
fn check<A: Allocator + Copy, W: Sink>(
    alloc: A,
    input: &[u8],
    sink: &mut W,
) -> Result<Outcome, RunFault>
    ensures answer { AnswersFor Checks ScriptRefuses input.now (W.taken sink.old) (W.taken sink.new) result }
    ensures reads { failed_reads result ≡ 0 }
    ensures writes { W.failures sink.new ≡ W.failures sink.old + failed_writes result }
{
    let plan = read_plan(alloc, input)?;
    let line = counts_line(alloc, &plan)?;
    send_text(line.as_bytes(), sink)?;
    Ok(Outcome::Finished)
}

/// Reads a script, without steps, and writes its counts in one line. The outcome is Finished.
pub fn run_check<A: Allocator + Copy, R: Source, W: Sink>(
    alloc: A,
    source: &mut R,
    sink: &mut W,
) -> Result<Outcome, RunFault>
    ensures answer { CheckAnswers (R.left source.old) (W.taken sink.old) (W.taken sink.new) result }
    ensures most { ConsumesUpTo (R.left source.old) (R.left source.new) 16777217 }
    ensures reads { R.failures source.new ≡ R.failures source.old + failed_reads result }
    ensures writes { W.failures sink.new ≡ W.failures sink.old + failed_writes result }
{
    let input = read_input(alloc, source)?;
    check(alloc, &input, sink)
}

/// Writes the upgraded script of an input.
fn upgrade<A: Allocator + Copy, W: Sink>(
    alloc: A,
    input: &[u8],
    sink: &mut W,
) -> Result<Outcome, RunFault>
    ensures answer { AnswersFor Upgrades ScriptRefuses input.now (W.taken sink.old) (W.taken sink.new) result }
    ensures reads { failed_reads result ≡ 0 }
    ensures writes { W.failures sink.new ≡ W.failures sink.old + failed_writes result }
{
    let plan = read_plan(alloc, input)?;
    // What goes out is a script again, and not too long, since the plan is within every limit.
    let _ = plan.jobs();
    upgrade_means_plan();
    upgrade_is_short();
    send_script(&plan, sink)?;
    Ok(Outcome::Finished)
}

/// Reads a script of either version, without steps, and writes the script of version 2 that means the
/// same plan. Upgrading what it writes gives the same bytes. The outcome is Finished.
pub fn run_upgrade<A: Allocator + Copy, R: Source, W: Sink>(
    alloc: A,
    source: &mut R,
    sink: &mut W,
) -> Result<Outcome, RunFault>
    ensures answer { UpgradeAnswers (R.left source.old) (W.taken sink.old) (W.taken sink.new) result }
    ensures most { ConsumesUpTo (R.left source.old) (R.left source.new) 16777217 }
    ensures reads { R.failures source.new ≡ R.failures source.old + failed_reads result }
    ensures writes { W.failures sink.new ≡ W.failures sink.old + failed_writes result }
    ensures stable { UpgradeIsStable }
{
    // A text has one meaning.
    one_meaning();
    let input = read_input(alloc, source)?;
    upgrade(alloc, &input, sink)
}
