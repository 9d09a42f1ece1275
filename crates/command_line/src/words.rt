//! The words that a program was started with, and how it ends if they gave no task.
ghost use Rattle.std.specs.Prelude.{◌≡◌};
ghost use Rattle.std.specs.Process.{exit_status};
ghost use Rattle.command_line.specs.Ends.{EndsWithHelp, EndsWithoutTask};
ghost use Rattle.command_line.specs.Reading.{IsRefusal};

use lab_program::{RunFault, end, tell};
use std::alloc::{AllocError, Global};
use std::env::Env;
use std::io;
use std::process::ExitCode;

/// Why the words gave no task.
#[derive(Debug, Drop)]
pub enum NoTask {
    /// Help was asked for, and this is its text.
    Help(String),
    /// The program doesn't take these words, for the reason in this line.
    Refused(String),
    /// No memory is left.
    NoMemory,
}

impl From<AllocError> for NoTask {
    ghost use Rattle.std.specs.Prelude.{◌≡◌};
    ghost use Rattle.command_line.specs.declared.words.NoTask.TheVariants as reasons;

    ghost from_gives = { λ _ reason. reason ≡ reasons.NoMemory };

    fn from(_error: AllocError) -> NoTask {
        NoTask::NoMemory
    }
}

/// Words that are refused for this reason.
pub fn refused(alloc: Global, reason: &str) -> NoTask
    ensures { IsRefusal result }
{
    match String::from_str(alloc, reason) {
        Ok(reason) => NoTask::Refused(reason),
        Err(_) => NoTask::NoMemory,
    }
}

/// The words that the program was started with, its own name first. Words that aren't text are refused.
pub fn given_words<R: Env>(rt: &R, alloc: Global) -> Result<Vec<String>, NoTask> {
    let given = match std::env::args(&(rt, alloc)) {
        Ok(given) => given,
        Err(error) if error.kind() == io::ErrorKind::OutOfMemory => return Err(NoTask::NoMemory),
        Err(_) => return Err(refused(alloc, "a word isn't text")),
    };
    Ok(given.collect(alloc)?)
}

/// Prints the text of the help.
fn end_with_help(rt: &(impl Print + Eprint), program: &str, text: &str) -> ExitCode
    ensures { EndsWithHelp (exit_status result) }
{
    match print!(rt; "{text}") {
        Ok(()) => ExitCode::SUCCESS,
        Err(_) => end(rt, program, Err(RunFault::Write)),
    }
}

/// The status if the words gave no task. Help is printed on standard output. Words that are refused get one line on standard
/// error, always the same. The status is 4 if the help can't be printed.
pub fn end_without_task(rt: &(impl Print + Eprint), program: &str, reason: NoTask) -> ExitCode
    ensures { EndsWithoutTask reason (exit_status result) }
{
    match reason {
        NoTask::Help(text) => end_with_help(rt, program, text.as_str()),
        NoTask::Refused(_) => {
            tell(rt, program, &"command line refused");
            ExitCode::from(2)
        }
        NoTask::NoMemory => end(rt, program, Err(RunFault::NoMemory)),
    }
}

/// As `end_without_task`, but the line of words that are refused says why, and where the help is.
pub fn end_saying_why(rt: &(impl Print + Eprint), program: &str, reason: NoTask) -> ExitCode
    ensures { EndsWithoutTask reason (exit_status result) }
{
    if let NoTask::Refused(why) = &reason {
        let _ = eprintln!(rt; "{program}: command line refused: {why}; see {program} --help");
        return ExitCode::from(2);
    }
    end_without_task(rt, program, reason)
}
