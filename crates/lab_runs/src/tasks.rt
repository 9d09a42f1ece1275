//! Which task runs what.
ghost use Rattle.std.specs.Prelude.{◌≡◌, ◌+◌};
ghost use Rattle.lab_program.specs.Input.{ConsumesUpTo};
ghost use Rattle.lab_program.specs.Faults.{failed_reads, failed_writes};
ghost use Rattle.labrun_words.specs.Words.{MayRun};
ghost use Rattle.lab_runs.specs.Tasks.{TaskAnswers};

use crate::replay::run_replay;
use crate::scripts::{run_check, run_upgrade};
use crate::shared::{run_rounds, run_threads};
use lab_program::{Outcome, RunFault, Source};
use labrun_words::Task;
use report::Sink;
use std::alloc::Allocator;
use std::sync::Wait;
use std::thread::Threads;
use whole_runs::Gate;

/// Runs a task over a source and a sink. Only a task by threads starts any, and only its turns pass the gate.
pub fn run_task<
    X: Threads + Wait + Sync,
    A: Allocator + Copy + Send + Sync,
    R: Source,
    W: Sink,
    G: Gate,
>(task: Task, rt: &X, alloc: A, source: &mut R, sink: &mut W, gate: &G) -> Result<Outcome, RunFault>
    requires { MayRun task }
    ensures answer { TaskAnswers task (R.left source.old) (W.taken sink.old) (W.taken sink.new) result }
    ensures most { ConsumesUpTo (R.left source.old) (R.left source.new) 16777217 }
    ensures reads { R.failures source.new ≡ R.failures source.old + failed_reads result }
    ensures writes { W.failures sink.new ≡ W.failures sink.old + failed_writes result }
{
    match task {
        Task::Rounds { limit } => run_rounds(alloc, source, sink, limit),
        Task::Threads { workers, turns } => {
            run_threads(rt, alloc, source, sink, workers, turns, gate)
        }
        Task::Replay => run_replay(alloc, source, sink),
        Task::Check => run_check(alloc, source, sink),
        Task::Upgrade => run_upgrade(alloc, source, sink),
    }
}
