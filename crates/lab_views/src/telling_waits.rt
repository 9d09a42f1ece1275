//! Where the waiting of a script's run by rounds comes from, as numbers.
ghost use Rattle.std.specs.Prelude.{◌≡◌, ◌+◌, ◌<◌, length, IfOk};
ghost use Rattle.std.specs.List.{All};
ghost use Rattle.waiting.specs.Text.{waits_text};
ghost use Rattle.lab_program.specs.Faults.{failed_reads, failed_writes};
ghost use Rattle.lab_program.specs.Answers.{AnswersFor, ScriptRefuses};
ghost use Rattle.lab_views.specs.Waits.{TellsWaits};

use chains::longest_chain;
use lab_plan::{JobNo, Plan};
use lab_program::{Outcome, RunFault, send_text};
use report::Sink;
use script_reader::read_plan;
use std::alloc::{AllocError, Allocator};
use waiting::{RoundsRun, add_waits, run_by_rounds};

/// The whole text.
fn waits_of<A: Allocator>(
    alloc: A,
    plan: &Plan<A>,
    run: &RoundsRun<A>,
    chain: &[JobNo],
) -> Result<Vec<u8, A>, AllocError>
    requires all { length run.now.jobs ≡ length plan.now.jobs }
    requires chain { All (λ job. job < length plan.now.jobs) chain.now }
    ensures { IfOk result (λ text. text.items ≡ waits_text plan.now run.now chain.now) }
{
    let mut text = Vec::new(alloc);
    add_waits(&mut text, plan, run, chain)?;
    Ok(text)
}

/// Writes who waited in a script's run by at most this many rounds, and for how long; and a longest chain of precedence at the start.
///
/// Memory grows with the sessions of the script, not with the rounds. The outcome is Finished, whether or not all jobs are retired then.
pub(crate) fn waits_input<A: Allocator + Copy, W: Sink>(
    alloc: A,
    input: &[u8],
    sink: &mut W,
    limit: u32,
) -> Result<Outcome, RunFault>
    ensures answer { AnswersFor (TellsWaits limit) ScriptRefuses input.now (W.taken sink.old) (W.taken sink.new) result }
    ensures reads { failed_reads result ≡ 0 }
    ensures writes { W.failures sink.new ≡ W.failures sink.old + failed_writes result }
{
    let plan = read_plan(alloc, input)?;
    let run = run_by_rounds(alloc, &plan, limit)?;
    let chain = longest_chain(alloc, &plan)?;
    let text = waits_of(alloc, &plan, &run, chain.jobs())?;
    send_text(&text, sink)?;
    Ok(Outcome::Finished)
}
