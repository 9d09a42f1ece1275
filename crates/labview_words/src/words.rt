//! The words of the command line.
ghost use Rattle.std.specs.Prelude.{◌≡◌, map, codes, IfOk};
ghost use Rattle.clap.specs.Words.{app_of, subcommand_rows_of, with_subcommand};
ghost use Rattle.command_line.specs.Command.{word_of_number, word_of_optional_number};
ghost use Rattle.labview_words.specs.Answers.{AnswersWords};
ghost use Rattle.labview_words.specs.Command.{app_without_rounds, arrange_found, labview_app, task_found};

use clap::{ArgMatches, Command};
use command_line::{
    NoTask, number, number_of, optional_number, program, refused, why_no_task, with_word,
};
use std::alloc::{AllocError, Global};
use std::convert::AsStr;

/// A view of a script or of a report.
#[derive(Clone, Copy, Debug, PartialEq, Eq, Drop)]
pub enum View {
    /// Tell why a step of a script isn't legal, and what is.
    Explain,
    /// Draw a picture of a report.
    Picture,
    /// Write the table of a report's logs.
    Table,
    /// Write a script with its jobs in another order.
    Arrange,
    /// Write a script with its jobs in the best order that was measured, by runs of at most this many rounds.
    ArrangeMeasured { limit: u32 },
    /// Write a script with the steps of its run by rounds, at most this many.
    Trace { limit: u32 },
    /// Tell who waited in a script's run by rounds, at most this many, and for how long.
    Waits { limit: u32 },
    /// Tell which job kept which waiting in a script's run by rounds, at most this many.
    Blocks { limit: u32 },
    /// Draw a script's run by rounds, at most this many, as a picture over time.
    Gantt { limit: u32 },
}

/// What the words ask for.
#[derive(Clone, Copy, Debug, PartialEq, Eq, Drop)]
pub enum Task {
    /// Show a script or a report.
    Show(View),
    /// Write the script that the lab of a journal has become, with the sessions that came.
    Script,
    /// Write this script with each step of a journal.
    Steps,
}

/// The program's name.
pub const PROGRAM: &str = "labview";

/// What the program does.
const ABOUT: &str = "Shows and explains the runs of labrun";

/// What stands below the table of words in the help.
const AFTER_HELP: &str =
    "The values: `trace N`, `waits N`, `blocks N`, `gantt N`, `arrange N`. N is a number from 0 to
1000000000, in digits. `arrange` without N may not help; with N it measures orders by runs of at most
N rounds, and the best is never worse.

The input comes from standard input, at most 16777216 bytes. What is printed goes to
standard output, and a fault in one line to standard error.

Statuses:
  0  explain: done, whether the steps are legal or not; picture, table, script, steps, trace, waits,
     blocks, gantt, arrange, --help: done
  1  the script, the report or the journal is refused; the fault names its line or place
  2  the command line is refused
  3  trace: longer than a replay reads; arrange: the script went out as it was
  4  reading or writing failed, or the input is longer than 16777216 bytes
  5  no memory";

/// A command with one more word, which takes the most rounds of a run.
fn with_rounds<'a>(
    alloc: Global,
    command: Command<'a>,
    name: &'a str,
    about: &'a str,
) -> Result<Command<'a>, AllocError>
    ensures { IfOk result (λ c. app_of c ≡ with_subcommand (app_of command.entry) (word_of_number name.entry.now 0 1000000000).top) }
{
    let limit = number(alloc, "N", 0, 1_000_000_000, "the most rounds");
    let word = Command::new(alloc, name).about(about);
    command.subcommand(word.arg(limit)?)
}

/// A command with the word `arrange`, which may take the most rounds of a run.
fn with_arrange<'a>(alloc: Global, command: Command<'a>) -> Result<Command<'a>, AllocError>
    ensures { IfOk result (λ c. app_of c ≡ with_subcommand (app_of command.entry) (word_of_optional_number (codes "arrange") 0 1000000000).top) }
{
    let limit = optional_number(
        alloc,
        "N",
        0,
        1_000_000_000,
        "the most rounds of a run by which an order is measured",
    );
    let word = Command::new(alloc, "arrange").about(
        "read a script, write it with its jobs in an order in which chains at the start are short; with N, in the best that was measured",
    );
    command.subcommand(word.arg(limit)?)
}

/// The program's command line with the words that need no value.
fn without_rounds<'a>(alloc: Global) -> Result<Command<'a>, AllocError>
    ensures { IfOk result (λ c. app_of c ≡ app_without_rounds) }
{
    let command = program(alloc, PROGRAM, ABOUT, AFTER_HELP);
    let command = with_word(
        alloc,
        command,
        "explain",
        "read a script and its steps, tell why the first that isn't legal is refused, and what is legal there",
    )?;
    let command = with_word(
        alloc,
        command,
        "picture",
        "read a report of labrun, and draw its timeline as SVG",
    )?;
    let command = with_word(
        alloc,
        command,
        "table",
        "read a report of labrun, and write its logs as comma-separated values",
    )?;
    let command = with_word(
        alloc,
        command,
        "script",
        "read a journal, write the script that its lab has become, with the sessions that came",
    )?;
    let command = with_word(
        alloc,
        command,
        "steps",
        "read a journal, write this script and each step that was done, for labrun replay",
    )?;
    with_arrange(alloc, command)
}

/// The program's command line.
fn command<'a>(alloc: Global) -> Result<Command<'a>, AllocError>
    ensures { IfOk result (λ c. app_of c ≡ labview_app) }
{
    let command = without_rounds(alloc)?;
    let command = with_rounds(
        alloc,
        command,
        "trace",
        "read a script, write it with the steps of its run by at most N rounds, for labrun replay",
    )?;
    let command = with_rounds(
        alloc,
        command,
        "waits",
        "read a script, tell who waits in its run by at most N rounds, and for how long",
    )?;
    let command = with_rounds(
        alloc,
        command,
        "blocks",
        "read a script, tell who keeps whom waiting in its run by at most N rounds, and for which instrument",
    )?;
    with_rounds(
        alloc,
        command,
        "gantt",
        "read a script, and draw its run by at most N rounds over time, as SVG",
    )
}

/// The view of `arrange` with the number that clap found, or without one.
fn arrange_of(limit: Option<u32>) -> View
    ensures { result ≡ arrange_found limit }
{
    match limit {
        None => View::Arrange,
        Some(limit) => View::ArrangeMeasured { limit },
    }
}

/// The task of what clap found.
fn task_of(matches: &ArgMatches<'_>) -> Option<Task>
    ensures { result ≡ task_found (subcommand_rows_of matches.now) }
{
    match matches.subcommand()? {
        ("explain", _) => Some(Task::Show(View::Explain)),
        ("picture", _) => Some(Task::Show(View::Picture)),
        ("table", _) => Some(Task::Show(View::Table)),
        ("script", _) => Some(Task::Script),
        ("steps", _) => Some(Task::Steps),
        ("arrange", values) => Some(Task::Show(arrange_of(number_of(values, "N")))),
        ("trace", values) => {
            let limit = number_of(values, "N")?;
            Some(Task::Show(View::Trace { limit }))
        }
        ("waits", values) => {
            let limit = number_of(values, "N")?;
            Some(Task::Show(View::Waits { limit }))
        }
        ("blocks", values) => {
            let limit = number_of(values, "N")?;
            Some(Task::Show(View::Blocks { limit }))
        }
        ("gantt", values) => {
            let limit = number_of(values, "N")?;
            Some(Task::Show(View::Gantt { limit }))
        }
        _ => None,
    }
}

/// The task that the words of a command line ask for, the program's own name first, as clap reads them. Words that ask
/// clap for help give its text, and all others are refused.
pub fn read_words<S: AsStr>(alloc: Global, words: &[S]) -> Result<Task, NoTask>
    ensures { AnswersWords (map S.text words.now) result }
{
    let command = command(alloc)?;
    match command.try_get_matches_from(words) {
        Ok(matches) => match task_of(&matches) {
            Some(task) => Ok(task),
            None => Err(refused(alloc, "a word is missing")),
        },
        Err(error) => Err(why_no_task(alloc, &error)),
    }
}
