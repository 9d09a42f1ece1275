//! The words of the command line.
ghost use Rattle.std.specs.Prelude.{◌≡◌, map, codes, IfOk};
ghost use Rattle.clap.specs.Words.{app_of, subcommand_rows_of, with_subcommand};
ghost use Rattle.command_line.specs.Command.{word_of_number, word_of_numbers};
ghost use Rattle.labrun_words.specs.Answers.{AnswersWords};
ghost use Rattle.labrun_words.specs.Command.{labrun_app, task_found};
ghost use Rattle.labrun_words.specs.Words.{MayRun};

use clap::{ArgMatches, Command};
use command_line::{NoTask, number, number_of, program, refused, why_no_task, with_word};
use std::alloc::{AllocError, Global};
use std::convert::AsStr;

/// What the words ask for.
#[derive(Clone, Copy, Debug, PartialEq, Eq, Drop)]
pub enum Task {
    /// Run a script on one thread, at most this many rounds.
    Rounds { limit: u32 },
    /// Run a script by this many workers, at most this many turns of each job.
    Threads { workers: u32, turns: u32 },
    /// Replay the steps of a script.
    Replay,
    /// Check a script, and print its counts.
    Check,
    /// Print a script in version 2.
    Upgrade,
}

/// The program's name.
pub const PROGRAM: &str = "labrun";

/// What the program does.
const ABOUT: &str = "Runs command scripts on the simulated instruments of a shared laboratory";

/// What stands below the table of words in the help.
const AFTER_HELP: &str =
    "The values: `rounds N`, `threads W N`. Without a command it runs as `rounds 10000`. N is a number
from 0 to 1000000000, W one from 1 to 32, in digits.

The script comes from standard input, at most 16777216 bytes. What is printed goes to
standard output, and a fault in one line to standard error.

Statuses:
  0  rounds, threads, replay: every job is retired; check, upgrade, --help: done
  1  the script or a step is refused; the fault names its line
  2  the command line is refused
  3  rounds, threads, replay: a job isn't retired
  4  reading or writing failed, or the input is longer than 16777216 bytes
  5  no memory

Example: two jobs take turns on a scale, and each turns its dial on by 1
  printf 'lab 1\\njob a\\nsession\\nscale add 1\\nend\\njob b\\nsession\\nscale add 1\\nend\\n' | labrun";

/// A command with `rounds N`.
fn with_rounds<'a>(alloc: Global, command: Command<'a>) -> Result<Command<'a>, AllocError>
    ensures { IfOk result (λ c. app_of c ≡ with_subcommand (app_of command.entry) (word_of_number (codes "rounds") 0 1000000000).top) }
{
    let limit = number(alloc, "N", 0, 1_000_000_000, "the most rounds");
    let rounds = Command::new(alloc, "rounds").about(
        "run a script on one thread, one turn of each job a round, at most N rounds, print the report",
    );
    command.subcommand(rounds.arg(limit)?)
}

/// A command with `threads W N`.
fn with_threads<'a>(alloc: Global, command: Command<'a>) -> Result<Command<'a>, AllocError>
    ensures { IfOk result (λ c. app_of c ≡ with_subcommand (app_of command.entry) (word_of_numbers (codes "threads") 1 32 0 1000000000).top) }
{
    let threads = Command::new(alloc, "threads").about(
        "run a script by up to W worker threads, at most N turns of each job, print the report",
    );
    let threads = threads.arg(number(alloc, "W", 1, 32, "the workers"))?;
    let threads = threads.arg(number(alloc, "N", 0, 1_000_000_000, "the most turns of each job"))?;
    command.subcommand(threads)
}

/// The program's command line.
fn command<'a>(alloc: Global) -> Result<Command<'a>, AllocError>
    ensures { IfOk result (λ c. app_of c ≡ labrun_app) }
{
    let command = program(alloc, PROGRAM, ABOUT, AFTER_HELP);
    let command = with_rounds(alloc, command)?;
    let command = with_threads(alloc, command)?;
    let command = with_word(
        alloc,
        command,
        "replay",
        "read a script and its steps, take each step where it is legal, print the report",
    )?;
    let command = with_word(
        alloc,
        command,
        "check",
        "read a script and print its counts",
    )?;
    with_word(
        alloc,
        command,
        "upgrade",
        "read a script of either version and print it in version 2",
    )
}

/// The task of what clap found.
fn task_of(matches: &ArgMatches<'_>) -> Option<Task>
    ensures { result ≡ task_found (subcommand_rows_of matches.now) }
{
    match matches.subcommand() {
        None => Some(Task::Rounds { limit: 10_000 }),
        Some(("rounds", values)) => {
            let limit = number_of(values, "N")?;
            Some(Task::Rounds { limit })
        }
        Some(("threads", values)) => {
            let workers = number_of(values, "W")?;
            let turns = number_of(values, "N")?;
            Some(Task::Threads { workers, turns })
        }
        Some(("replay", _)) => Some(Task::Replay),
        Some(("check", _)) => Some(Task::Check),
        Some(("upgrade", _)) => Some(Task::Upgrade),
        Some(_) => None,
    }
}

/// The task that the words of a command line ask for, the program's own name first, as clap reads them. Words that ask
/// clap for help give its text, and all others are refused.
pub fn read_words<S: AsStr>(alloc: Global, words: &[S]) -> Result<Task, NoTask>
    ensures answer { AnswersWords (map S.text words.now) result }
    ensures task { IfOk result MayRun }
{
    let command = command(alloc)?;
    match command.try_get_matches_from(words) {
        Ok(matches) => match task_of(&matches) {
            Some(task) => Ok(task),
            None => Err(refused(alloc, "a word is missing")),
        },
        Err(error) => Err(why_no_task(alloc, &error)),
    }
}
