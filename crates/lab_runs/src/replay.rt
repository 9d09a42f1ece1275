//! What the program does with a script and its steps: replay them.
ghost use Rattle.std.specs.Prelude.{◌≡◌, ◌+◌};
ghost use Rattle.std.specs.List.{All};
ghost use Rattle.legal_steps.specs.Opening.{the_opening};
ghost use Rattle.legal_steps.specs.Steps.{IsStepOf};
ghost use Rattle.interleaving.specs.Start.{at_start};
ghost use Rattle.lab_program.specs.Input.{ConsumesUpTo};
ghost use Rattle.lab_program.specs.Faults.{failed_reads, failed_writes};
ghost use Rattle.lab_program.specs.Answers.{AnswersFor};
ghost use Rattle.lab_runs.specs.Replays.{ReplaysScript, ReplayRefuses, ReplayAnswers};
ghost use Rattle.lab_runs.specs.Replaying.{ReplaysSteps};

use crate::run_report::show_run;
use crate::steps::take_steps;
use headline::holds_of_every_run;
use interleaving::{StepLine, World};
use lab_plan::Plan;
use lab_program::{Outcome, RunFault, Source, read_input};
use report::Sink;
use report::laws::report_of_events;
use script_reader::read_steps;
use std::alloc::Allocator;

/// Takes steps from the initial state on, and writes the report of their run.
fn take_and_show<A: Allocator, W: Sink>(
    plan: &Plan<A>,
    world: &mut World<'_, A>,
    steps: &[StepLine],
    sink: &mut W,
) -> Result<Outcome, RunFault>
    requires own { All (λ line. IsStepOf plan.now line.step) steps.now }
    requires opening { world.old ≡ at_start plan.now (the_opening plan.now) }
    ensures answer { ReplaysSteps plan.now steps.now (W.taken sink.old) (W.taken sink.new) result }
    ensures reads { failed_reads result ≡ 0 }
    ensures writes { W.failures sink.new ≡ W.failures sink.old + failed_writes result }
{
    if let Err(line) = take_steps(world, steps) {
        return Err(RunFault::Step { line });
    }
    // The plan is within every limit, the report of the world is that of the steps, and what holds of
    // every run holds of them.
    let _ = plan.jobs();
    report_of_events();
    holds_of_every_run();
    show_run(&*world, sink)
}

/// Replays steps of a plan.
fn replay_steps<A: Allocator + Copy, W: Sink>(
    alloc: A,
    plan: &Plan<A>,
    steps: &[StepLine],
    sink: &mut W,
) -> Result<Outcome, RunFault>
    requires own { All (λ line. IsStepOf plan.now line.step) steps.now }
    ensures answer { ReplaysSteps plan.now steps.now (W.taken sink.old) (W.taken sink.new) result }
    ensures reads { failed_reads result ≡ 0 }
    ensures writes { W.failures sink.new ≡ W.failures sink.old + failed_writes result }
{
    let mut world = World::opening(alloc, plan)?;
    take_and_show(plan, &mut world, steps, sink)
}

/// Replays the steps of an input.
fn replay<A: Allocator + Copy, W: Sink>(
    alloc: A,
    input: &[u8],
    sink: &mut W,
) -> Result<Outcome, RunFault>
    ensures answer { AnswersFor ReplaysScript ReplayRefuses input.now (W.taken sink.old) (W.taken sink.new) result }
    ensures reads { failed_reads result ≡ 0 }
    ensures writes { W.failures sink.new ≡ W.failures sink.old + failed_writes result }
{
    let (plan, steps) = read_steps(alloc, input)?;
    replay_steps(alloc, &plan, &steps, sink)
}

/// Takes each step of a script from the initial state on, all in turn, and writes the report of the run.
///
/// The input is at most 16777216 bytes. All steps are read before the first is taken, and all are
/// taken before the report goes out, a line at a time; a flush follows it. Finished says that every
/// job is retired then. Whatever the steps, the logs that are printed are whole except for their ends.
pub fn run_replay<A: Allocator + Copy, R: Source, W: Sink>(
    alloc: A,
    source: &mut R,
    sink: &mut W,
) -> Result<Outcome, RunFault>
    ensures answer { ReplayAnswers (R.left source.old) (W.taken sink.old) (W.taken sink.new) result }
    ensures most { ConsumesUpTo (R.left source.old) (R.left source.new) 16777217 }
    ensures reads { R.failures source.new ≡ R.failures source.old + failed_reads result }
    ensures writes { W.failures sink.new ≡ W.failures sink.old + failed_writes result }
{
    let input = read_input(alloc, source)?;
    replay(alloc, &input, sink)
}
