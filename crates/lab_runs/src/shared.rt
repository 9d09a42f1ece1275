//! What the program does with a script on a shared bench: its jobs take turns, in rounds or by threads.
ghost use Rattle.std.specs.Prelude.{◌≡◌, ◌+◌, ◌≤◌};
ghost use Rattle.lab_program.specs.Input.{ConsumesUpTo};
ghost use Rattle.lab_program.specs.Faults.{failed_reads, failed_writes};
ghost use Rattle.lab_program.specs.Answers.{AnswersFor, ScriptRefuses};
ghost use Rattle.lab_runs.specs.Shared.{RunsByTurns, RunsInRounds, HasOneRun, RoundsAnswer, ThreadsAnswer};

use crate::run_report::show_run;
use headline::holds_of_every_run;
use lab_program::{Outcome, RunFault, Source, read_input};
use report::Sink;
use report::laws::one_report;
use rounds::laws::one_run;
use script_reader::laws::one_meaning;
use script_reader::read_plan;
use std::alloc::Allocator;
use std::sync::Wait;
use std::thread::Threads;
use whole_runs::{AtEnd, Gate, by_rounds, by_threads};

/// Runs the script of an input in rounds.
fn in_rounds<A: Allocator + Copy, W: Sink>(
    alloc: A,
    input: &[u8],
    sink: &mut W,
    limit: u32,
) -> Result<Outcome, RunFault>
    ensures answer { AnswersFor (RunsInRounds limit) ScriptRefuses input.now (W.taken sink.old) (W.taken sink.new) result }
    ensures reads { failed_reads result ≡ 0 }
    ensures writes { W.failures sink.new ≡ W.failures sink.old + failed_writes result }
{
    // The report is that of what the run shows, and what holds of every run holds of this one.
    one_report();
    holds_of_every_run();
    let plan = read_plan(alloc, input)?;
    let run = by_rounds(alloc, &plan, limit)?;
    show_run(&AtEnd { closed: &run }, sink)
}

/// Runs a script on one thread, in rounds: each round has one turn of each job, in the order of the script. It ends once all
/// jobs are retired, or after this many rounds. Then it writes the report, a line at a time; a flush follows it.
///
/// The input is at most 16777216 bytes. Nothing goes out before the run is over. The same bytes and the same limit give the
/// same report. Finished says that every job is retired then.
pub fn run_rounds<A: Allocator + Copy, R: Source, W: Sink>(
    alloc: A,
    source: &mut R,
    sink: &mut W,
    limit: u32,
) -> Result<Outcome, RunFault>
    ensures answer { RoundsAnswer limit (R.left source.old) (W.taken sink.old) (W.taken sink.new) result }
    ensures one { HasOneRun }
    ensures most { ConsumesUpTo (R.left source.old) (R.left source.new) 16777217 }
    ensures reads { R.failures source.new ≡ R.failures source.old + failed_reads result }
    ensures writes { W.failures sink.new ≡ W.failures sink.old + failed_writes result }
{
    // A text has one meaning, and a plan and a limit have one run.
    one_meaning();
    one_run();
    let input = read_input(alloc, source)?;
    in_rounds(alloc, &input, sink, limit)
}

/// Runs the script of an input by threads.
fn by_workers<X: Threads + Wait + Sync, A: Allocator + Copy + Send + Sync, W: Sink, G: Gate>(
    rt: &X,
    alloc: A,
    input: &[u8],
    sink: &mut W,
    workers: u32,
    turns: u32,
    gate: &G,
) -> Result<Outcome, RunFault>
    requires workers { 1 ≤ workers }
    ensures answer { AnswersFor (RunsByTurns turns) ScriptRefuses input.now (W.taken sink.old) (W.taken sink.new) result }
    ensures reads { failed_reads result ≡ 0 }
    ensures writes { W.failures sink.new ≡ W.failures sink.old + failed_writes result }
{
    // The report is that of what the run shows, and what holds of every run holds of this one.
    one_report();
    holds_of_every_run();
    let plan = read_plan(alloc, input)?;
    let run = by_threads(rt, alloc, &plan, workers, turns, gate)?;
    show_run(&AtEnd { closed: &run }, sink)
}

/// Runs a script by 1 to 32 worker threads: worker `w` takes the turns of the jobs whose number is `w` modulo the workers, at
/// most this many turns of each job. Then it writes the report, a line at a time; a flush follows it.
///
/// The input is at most 16777216 bytes. Nothing goes out before the run is over. A worker passes the gate before each turn, and
/// ends early once it has seen that all jobs are retired. If a thread can't be made, or isn't worth starting (`workers::threads`), its turns
/// are taken on another.
/// Finished says that every job is retired then; otherwise each job took as many turns as were asked for.
pub fn run_threads<
    X: Threads + Wait + Sync,
    A: Allocator + Copy + Send + Sync,
    R: Source,
    W: Sink,
    G: Gate,
>(
    rt: &X,
    alloc: A,
    source: &mut R,
    sink: &mut W,
    workers: u32,
    turns: u32,
    gate: &G,
) -> Result<Outcome, RunFault>
    requires workers { (1 ≤ workers) × (workers ≤ 32) }
    ensures answer { ThreadsAnswer turns (R.left source.old) (W.taken sink.old) (W.taken sink.new) result }
    ensures most { ConsumesUpTo (R.left source.old) (R.left source.new) 16777217 }
    ensures reads { R.failures source.new ≡ R.failures source.old + failed_reads result }
    ensures writes { W.failures sink.new ≡ W.failures sink.old + failed_writes result }
{
    let input = read_input(alloc, source)?;
    by_workers(rt, alloc, &input, sink, workers, turns, gate)
}
