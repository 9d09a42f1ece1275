//! Why a plan's builder refuses a call, and a plan one more session.
use std::alloc::{AllocError, AllocFailed};

/// Why a plan's builder refuses a call. Of several reasons the first of these is given: an empty
/// session, a job twice, a limit passed, too many in common, no memory left.
#[derive(Clone, Copy, PartialEq, Eq, Debug)]
pub enum PlanRefusal {
    /// One more would be past a limit of jobs, instruments, sessions of a job, or commands (`limits`).
    LimitPassed,
    /// The session before has no command.
    SessionEmpty,
    /// A job has this name already.
    JobTwice,
    /// Two jobs have more instruments in common than an edge may have bottles.
    TooManyInCommon,
    /// An allocation failed.
    NoMemory,
}

impl From<AllocError> for PlanRefusal {
    ghost use Rattle.std.specs.Prelude.{◌≡◌};
    ghost use Rattle.lab_plan.specs.declared.refusal.PlanRefusal.TheVariants.{NoMemory};

    ghost from_gives = { λ _ refusal. refusal ≡ NoMemory };

    fn from(_error: AllocError) -> PlanRefusal {
        PlanRefusal::NoMemory
    }
}

impl<T: Drop> From<AllocFailed<T>> for PlanRefusal {
    ghost use Rattle.std.specs.Prelude.{◌≡◌};
    ghost use Rattle.lab_plan.specs.declared.refusal.PlanRefusal.TheVariants.{NoMemory};

    ghost from_gives = { λ _ refusal. refusal ≡ NoMemory };

    fn from(_error: AllocFailed<T>) -> PlanRefusal {
        PlanRefusal::NoMemory
    }
}

/// Why a plan refuses one more session. Of several reasons the first of these is given.
#[derive(Clone, Copy, PartialEq, Eq, Debug)]
pub enum MoreRefusal {
    /// The session has no command.
    Empty,
    /// It would be past a limit of sessions of a job, or of commands (`limits`).
    LimitPassed,
    /// A command is on an instrument that no session of the job names. The session would make an edge, or a bottle.
    NotItsOwn,
    /// The plan is of version 1, which knows no patience, or the patience is past the largest number.
    NotPatient,
    /// The number of a command is past the largest.
    TooLarge,
    /// An allocation failed.
    NoMemory,
}

impl From<AllocError> for MoreRefusal {
    ghost use Rattle.std.specs.Prelude.{◌≡◌};
    ghost use Rattle.lab_plan.specs.declared.refusal.MoreRefusal.TheVariants.{NoMemory};

    ghost from_gives = { λ _ refusal. refusal ≡ NoMemory };

    fn from(_error: AllocError) -> MoreRefusal {
        MoreRefusal::NoMemory
    }
}
