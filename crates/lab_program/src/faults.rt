//! How a run ends, and why it fails.
ghost use Rattle.std.specs.Prelude.{◌≡◌};
ghost use Rattle.lab_program.specs.Faults.{status_of, status_of_cause};

use crate::input::ReadFault;
use interleaving::NoMemory;
use report::WriteFault;
use script_reader::{ScriptCause, ScriptFault};
use std::alloc::AllocError;
use thiserror::Error;

/// How a run ended that wrote all that it had to.
#[derive(Clone, Copy, PartialEq, Eq, Debug)]
pub enum Outcome {
    /// A run or a replay: every job is retired. A check, an upgrade or a view: it is done.
    Finished,
    /// A run or a replay: a job isn't retired. A view: the trace is longer than a replay reads, or the script went out as it was.
    Unfinished,
}

/// Why a run fails. On standard error its text comes after the program's name, a colon and a space.
#[derive(Clone, Copy, PartialEq, Eq, Debug, Error)]
pub enum RunFault {
    /// The script or its steps are refused.
    #[error("{0}")]
    Script(ScriptFault),
    /// The step of this line, counted from 1, isn't legal when its turn comes.
    #[error("line {line}: step is not legal")]
    Step { line: usize },
    /// A read of the input failed.
    #[error("read fault")]
    Read,
    /// The input goes on past its limit.
    #[error("input longer than 16777216 bytes")]
    TooLong,
    /// A write or the last flush failed.
    #[error("write fault")]
    Write,
    /// An allocation failed.
    #[error("no memory")]
    NoMemory,
}

fn status_of_cause(cause: ScriptCause) -> u8
    ensures { result ≡ status_of_cause cause }
{
    match cause {
        ScriptCause::NoMemory => 5,
        _ => 1,
    }
}

/// The status that the program ends with.
pub fn status_of(answer: &Result<Outcome, RunFault>) -> u8
    ensures { result ≡ status_of answer.now }
{
    match answer {
        Ok(Outcome::Finished) => 0,
        Ok(Outcome::Unfinished) => 3,
        Err(RunFault::Script(fault)) => status_of_cause(fault.cause),
        Err(RunFault::Step { .. }) => 1,
        Err(RunFault::Read) => 4,
        Err(RunFault::TooLong) => 4,
        Err(RunFault::Write) => 4,
        Err(RunFault::NoMemory) => 5,
    }
}

impl From<ReadFault> for RunFault {
    ghost use Rattle.std.specs.Prelude.{◌≡◌};
    ghost use Rattle.lab_program.specs.Faults.{fault_of};

    ghost from_gives = { λ fault run. run ≡ fault_of fault };

    fn from(fault: ReadFault) -> RunFault {
        match fault {
            ReadFault::Read => RunFault::Read,
            ReadFault::TooLong => RunFault::TooLong,
            ReadFault::NoMemory => RunFault::NoMemory,
        }
    }
}

impl From<ScriptFault> for RunFault {
    ghost use Rattle.std.specs.Prelude.{◌≡◌};
    ghost use Rattle.lab_program.specs.declared.faults.RunFault.TheVariants as faults;

    ghost from_gives = { λ fault run. run ≡ faults.Script fault };

    fn from(fault: ScriptFault) -> RunFault {
        RunFault::Script(fault)
    }
}

impl From<NoMemory> for RunFault {
    ghost use Rattle.std.specs.Prelude.{◌≡◌};
    ghost use Rattle.lab_program.specs.declared.faults.RunFault.TheVariants as faults;

    ghost from_gives = { λ _ run. run ≡ faults.NoMemory };

    fn from(_fault: NoMemory) -> RunFault {
        RunFault::NoMemory
    }
}

impl From<AllocError> for RunFault {
    ghost use Rattle.std.specs.Prelude.{◌≡◌};
    ghost use Rattle.lab_program.specs.declared.faults.RunFault.TheVariants as faults;

    ghost from_gives = { λ _ run. run ≡ faults.NoMemory };

    fn from(_error: AllocError) -> RunFault {
        RunFault::NoMemory
    }
}

impl From<WriteFault> for RunFault {
    ghost use Rattle.std.specs.Prelude.{◌≡◌};
    ghost use Rattle.lab_program.specs.declared.faults.RunFault.TheVariants as faults;

    ghost from_gives = { λ _ run. run ≡ faults.Write };

    fn from(_fault: WriteFault) -> RunFault {
        RunFault::Write
    }
}
