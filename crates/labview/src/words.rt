//! From the words of the command line to the status.
ghost use Rattle.std.specs.Prelude.{map};
ghost use Rattle.std.specs.Process.{exit_status};
ghost use Rattle.labview.specs.Answered.{AnswersCommand};

use command_line::end_saying_why;
use journal_views::{run_script, run_steps};
use lab_program::{Source, end};
use lab_views::{end_view, run_view};
use labview_words::{PROGRAM, Task, read_words};
use report::Sink;
use std::alloc::Global;
use std::convert::AsStr;
use std::process::ExitCode;

/// Writes what the words of a command line ask for, the program's own name first. Help, a fault and words that are refused
/// are told by `rt`. Without such words nothing is read.
pub fn run_words<X: Print + Eprint, S: AsStr, R: Source, W: Sink>(
    rt: &X,
    alloc: Global,
    words: &[S],
    source: &mut R,
    sink: &mut W,
) -> ExitCode
    ensures { AnswersCommand (map S.text words.now) (R.left source.old) (W.taken sink.old) (W.taken sink.new) (exit_status result) }
{
    match read_words(alloc, words) {
        Ok(Task::Show(view)) => {
            let mut gain = None;
            let answer = run_view(view, alloc, source, sink, &mut gain);
            end_view(rt, PROGRAM, view, answer, gain)
        }
        Ok(Task::Script) => end(rt, PROGRAM, run_script(alloc, source, sink)),
        Ok(Task::Steps) => end(rt, PROGRAM, run_steps(alloc, source, sink)),
        Err(reason) => end_saying_why(rt, PROGRAM, reason),
    }
}
