//! How a program ends: what it says, and its status.
ghost use Rattle.std.specs.Prelude.{◌≡◌};
ghost use Rattle.std.specs.Process.{exit_status};
ghost use Rattle.lab_program.specs.Faults.{status_of};

use crate::faults::{Outcome, RunFault, status_of};
use std::fmt::Display;
use std::process::ExitCode;

/// Writes a fault as one line on standard error, after the program's name. If that can't be written, nothing is said.
pub fn tell(rt: &impl Eprint, program: &str, fault: &impl Display) {
    let _ = eprintln!(rt; "{program}: {fault}");
}

/// The status of an answer; a fault gets one line on standard error.
pub fn end(rt: &impl Eprint, program: &str, answer: Result<Outcome, RunFault>) -> ExitCode
    ensures { exit_status result ≡ status_of answer }
{
    if let Err(fault) = &answer {
        tell(rt, program, fault);
    }
    ExitCode::from(status_of(&answer))
}
