//! Faults of scripts and step lists.
ghost use Rattle.std.specs.Prelude.{◌≡◌, Ok, Err, MatchResult};

use lab_plan::PlanRefusal;
use thiserror::Error;

/// Why a line, or the end of the text, is refused. Its text is what a user reads.
#[derive(Clone, Copy, PartialEq, Eq, Debug, Error)]
pub enum ScriptCause {
    /// The first line that isn't skipped isn't `lab 1` or `lab 2`, or there is none.
    #[error("S1 no lab header")]
    NoHeader,
    /// The line has no form that may stand there: so has a second header, a patience in version 1, or `steps` where no steps are read.
    #[error("S2 unknown word")]
    UnknownWord,
    /// A name breaks the rule of names.
    #[error("S3 bad name")]
    BadName,
    /// A number breaks the rule of numbers.
    #[error("S4 bad number")]
    BadNumber,
    /// An earlier job has the name.
    #[error("S5 job twice")]
    JobTwice,
    /// A command or `end` while no session is open.
    #[error("S6 not in a session")]
    NotInSession,
    /// A session before the first job; in a journal, a session that came to a job that the script doesn't have.
    #[error("S7 not in a job")]
    NotInJob,
    /// The end of a session without a command; or further sessions are read, and the text has none.
    #[error("S8 empty session")]
    EmptySession,
    /// A job, a session, the steps or the end of the text while a session is open.
    #[error("S9 session not closed")]
    SessionNotClosed,
    /// One more job, instrument, session, command or step than there may be.
    #[error("S10 limit passed")]
    LimitPassed,
    /// Two jobs have more instruments in common than an edge may have bottles.
    #[error("S11 more than 28 instruments in common")]
    TooManyInCommon,
    /// An allocation failed.
    #[error("S12 no memory")]
    NoMemory,
    /// A line after `steps` that is no step of the script's plan.
    #[error("S13 bad step")]
    BadStep,
    /// A command of a further session on an instrument that no session of its job names.
    #[error("S14 not an instrument of the job")]
    NotItsOwn,
}

/// The fault of a text: the number of a line, counted from 1, and why it is refused. A fault at the
/// end of the text has the number of lines plus one.
#[derive(Clone, Copy, PartialEq, Eq, Debug, Error)]
#[error("line {line}: {cause}")]
pub struct ScriptFault {
    pub line: usize,
    pub cause: ScriptCause,
}

impl From<PlanRefusal> for ScriptCause {
    ghost use Rattle.std.specs.Prelude.{◌≡◌};
    ghost use Rattle.script_reader.specs.Refused.{cause_of};

    ghost from_gives = { λ refusal cause. cause ≡ cause_of refusal };

    fn from(refusal: PlanRefusal) -> ScriptCause {
        match refusal {
            PlanRefusal::LimitPassed => ScriptCause::LimitPassed,
            PlanRefusal::SessionEmpty => ScriptCause::EmptySession,
            PlanRefusal::JobTwice => ScriptCause::JobTwice,
            PlanRefusal::TooManyInCommon => ScriptCause::TooManyInCommon,
            PlanRefusal::NoMemory => ScriptCause::NoMemory,
        }
    }
}

/// What a line gives, or its fault.
pub(crate) fn at_line<T>(line: usize, given: Result<T, ScriptCause>) -> Result<T, ScriptFault>
    ensures { MatchResult result (λ x. given ≡ Ok x) (λ fault. (given ≡ Err fault.cause) × (fault.line ≡ line)) }
{
    match given {
        Ok(x) => Ok(x),
        Err(cause) => Err(ScriptFault { line, cause }),
    }
}
