//! What clap found in the words.
ghost use Rattle.std.specs.Prelude.{◌≡◌};
ghost use Rattle.clap.specs.Words.{found_of, kind_of, rows_of};
ghost use Rattle.command_line.specs.Reading.{IsReason, number_found};

use crate::words::NoTask;
use clap::error::ErrorKind;
use clap::{ArgMatches, Error};
use std::alloc::{AllocError, Global};

/// What clap says first of its error, in one line: what stands before the first empty line.
fn in_one_line(alloc: Global, text: &str) -> Result<String, AllocError> {
    let text = match text.strip_prefix("error: ") {
        Some(rest) => rest,
        None => text,
    };
    let mut line = String::new(alloc);
    for part in text.lines() {
        if part.is_empty() {
            break;
        }
        if !line.is_empty() {
            line.push(' ')?;
        }
        line.push_str(part.trim())?;
    }
    Ok(line)
}

/// Why clap refuses words, in one line.
fn reason_of(alloc: Global, error: &Error) -> Result<String, AllocError> {
    let text = format!(in alloc; "{error}")?;
    in_one_line(alloc, text.as_str())
}

/// Why there is no task, by the error of clap.
pub fn why_no_task(alloc: Global, error: &Error) -> NoTask
    ensures { IsReason (kind_of error.now) result }
{
    match error.kind() {
        ErrorKind::OutOfMemory => NoTask::NoMemory,
        ErrorKind::DisplayHelp => match format!(in alloc; "{error}") {
            Ok(text) => NoTask::Help(text),
            Err(_) => NoTask::NoMemory,
        },
        _ => match reason_of(alloc, error) {
            Ok(reason) => NoTask::Refused(reason),
            Err(_) => NoTask::NoMemory,
        },
    }
}

/// The number that clap found under this name.
pub fn number_of(matches: &ArgMatches<'_>, id: &str) -> Option<u32>
    ensures { result ≡ number_found id.now (rows_of (found_of matches.now)) }
{
    matches.get_one::<u32>(id)
}
