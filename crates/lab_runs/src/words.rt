//! From the words of the command line to the status.
ghost use Rattle.std.specs.Prelude.{map};
ghost use Rattle.std.specs.Process.{exit_status};
ghost use Rattle.lab_runs.specs.Tasks.{AnswersCommand};

use crate::tasks::run_task;
use command_line::end_without_task;
use lab_program::{Source, end};
use labrun_words::{PROGRAM, read_words};
use report::Sink;
use std::alloc::Global;
use std::convert::AsStr;
use std::process::ExitCode;
use std::sync::Wait;
use std::thread::Threads;
use whole_runs::NoGate;

/// Runs the task that the words of a command line ask for, the program's own name first, and threads by `threads`. Help, a
/// fault and words that are refused are reported by `rt`. If the words ask for no task, nothing is read.
pub fn run_words<X: Threads + Wait + Sync, T: Print + Eprint, S: AsStr, R: Source, W: Sink>(
    threads: &X,
    rt: &T,
    alloc: Global,
    words: &[S],
    source: &mut R,
    sink: &mut W,
) -> ExitCode
    ensures { AnswersCommand (map S.text words.now) (R.left source.old) (W.taken sink.old) (W.taken sink.new) (exit_status result) }
{
    match read_words(alloc, words) {
        Ok(task) => {
            let answer = run_task(task, threads, alloc, source, sink, &NoGate);
            end(rt, PROGRAM, answer)
        }
        Err(reason) => end_without_task(rt, PROGRAM, reason),
    }
}
