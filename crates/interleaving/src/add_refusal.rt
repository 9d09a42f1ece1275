//! Why a world's plan isn't made longer.
use lab_plan::MoreRefusal;
use std::alloc::AllocError;

/// Why a session isn't added to the plan of a world. Of several reasons the first in this order is given.
#[derive(Clone, Copy, PartialEq, Eq, Debug)]
pub enum AddRefusal {
    /// The job has retired: it takes no further session.
    HasRetired,
    /// The world borrows its plan, and doesn't own it.
    IsLent,
    /// The plan refuses the session, or an allocation failed.
    Refused(MoreRefusal),
}

impl From<MoreRefusal> for AddRefusal {
    ghost use Rattle.std.specs.Prelude.{◌≡◌};
    ghost use Rattle.interleaving.specs.declared.add_refusal.AddRefusal.TheVariants.{Refused};

    ghost from_gives = { λ cause refusal. refusal ≡ Refused cause };

    fn from(cause: MoreRefusal) -> AddRefusal {
        AddRefusal::Refused(cause)
    }
}

impl From<AllocError> for AddRefusal {
    ghost use Rattle.std.specs.Prelude.{◌≡◌};
    ghost use Rattle.lab_plan.specs.declared.refusal.MoreRefusal.TheVariants.{NoMemory};
    ghost use Rattle.interleaving.specs.declared.add_refusal.AddRefusal.TheVariants.{Refused};

    ghost from_gives = { λ _ refusal. refusal ≡ Refused NoMemory };

    fn from(_error: AllocError) -> AddRefusal {
        AddRefusal::Refused(MoreRefusal::NoMemory)
    }
}
