//! Why a view isn't written, and what is said of an input of the other kind.
ghost use Rattle.std.specs.Prelude.{◌≡◌, true};
ghost use Rattle.lab_program.specs.Faults.{failed_reads, failed_writes};
ghost use Rattle.lab_views.specs.Pictures.{failed_picture_reads, failed_picture_writes};
ghost use Rattle.lab_views.specs.Answered.{IsReport, IsScript, TellsOfReport, TellsOfScript, failed_view_reads, failed_view_writes, status_of_view};

use crate::picture_fault::{PictureFault, status_of_picture};
use lab_program::{Outcome, RunFault, status_of};
use report_reader::read_report;
use script_reader::{ScriptCause, read_steps};
use std::alloc::Allocator;
use thiserror::Error;

/// Why a view isn't written. On standard error its text stands behind `labview: `.
#[derive(Clone, Copy, PartialEq, Eq, Debug, Error)]
pub enum ViewFault {
    /// A view of a script fails.
    #[error("{0}")]
    OfScript(RunFault),
    /// A view of a report fails.
    #[error("{0}")]
    OfReport(PictureFault),
    /// The view reads a report, and the input is a script.
    #[error("line {line}: this is a script; {view} reads a report: labrun < script | labview {view}")]
    GivenScript { line: usize, view: &'static str },
    /// The view reads a script, and the input is a report.
    #[error("line {line}: this is a report; {view} reads a script")]
    GivenReport { line: usize, view: &'static str },
}

/// The status that the program ends with.
pub fn status_of_view(answer: &Result<Outcome, ViewFault>) -> u8
    ensures { result ≡ status_of_view answer.now }
{
    match answer {
        Ok(outcome) => status_of(&Ok(*outcome)),
        Err(ViewFault::OfScript(fault)) => status_of(&Err(*fault)),
        Err(ViewFault::OfReport(fault)) => status_of_picture(&Err(*fault)),
        Err(ViewFault::GivenScript { .. }) => 1,
        Err(ViewFault::GivenReport { .. }) => 1,
    }
}

/// Whether the input is a report. Without memory it isn't said to be one.
fn is_report<A: Allocator + Copy>(alloc: A, input: &[u8]) -> bool
    ensures { result ≡ true → IsReport input.now }
{
    match read_report(alloc, input) {
        Ok(_) => true,
        Err(_) => false,
    }
}

/// Whether the input is a script, with or without steps. Without memory it isn't said to be one.
fn is_script<A: Allocator + Copy>(alloc: A, input: &[u8]) -> bool
    ensures { result ≡ true → IsScript input.now }
{
    match read_steps(alloc, input) {
        Ok(_) => true,
        Err(_) => false,
    }
}

/// The answer to a script; but if the script is refused and is a report, that it is one.
pub(crate) fn of_script<A: Allocator + Copy>(
    alloc: A,
    view: &'static str,
    input: &[u8],
    answer: Result<Outcome, RunFault>,
) -> Result<Outcome, ViewFault>
    ensures told { TellsOfScript (IsReport input.now) answer result }
    ensures reads { failed_view_reads result ≡ failed_reads answer }
    ensures writes { failed_view_writes result ≡ failed_writes answer }
{
    match answer {
        Ok(outcome) => Ok(outcome),
        Err(RunFault::Script(fault)) => {
            if fault.cause != ScriptCause::NoMemory && is_report(alloc, input) {
                let line = fault.line;
                return Err(ViewFault::GivenReport { line, view });
            }
            Err(ViewFault::OfScript(RunFault::Script(fault)))
        }
        Err(fault) => Err(ViewFault::OfScript(fault)),
    }
}

/// The answer to a report; but if the report is refused and is a script, that it is one.
pub(crate) fn of_report<A: Allocator + Copy>(
    alloc: A,
    view: &'static str,
    input: &[u8],
    answer: Result<(), PictureFault>,
) -> Result<Outcome, ViewFault>
    ensures told { TellsOfReport (IsScript input.now) answer result }
    ensures reads { failed_view_reads result ≡ failed_picture_reads answer }
    ensures writes { failed_view_writes result ≡ failed_picture_writes answer }
{
    match answer {
        Ok(()) => Ok(Outcome::Finished),
        Err(PictureFault::Report(fault)) => {
            if is_script(alloc, input) {
                let line = fault.line;
                return Err(ViewFault::GivenScript { line, view });
            }
            Err(ViewFault::OfReport(PictureFault::Report(fault)))
        }
        Err(fault) => Err(ViewFault::OfReport(fault)),
    }
}
