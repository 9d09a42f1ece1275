//! Why a world isn't started.
use cycles::NoMemory;
use std::alloc::AllocError;

/// Why a world isn't started. Of several reasons the first in this order is given.
#[derive(Clone, Copy, PartialEq, Eq, Debug)]
pub enum StartRefusal {
    /// The choices are not one for each edge, or one names a bottle that its edge doesn't have.
    BadChoices,
    /// An allocation failed.
    NoMemory,
    /// Precedence has a cycle.
    Cycle,
}

impl From<AllocError> for StartRefusal {
    ghost use Rattle.std.specs.Prelude.{◌≡◌};
    ghost use Rattle.interleaving.specs.declared.refusal.StartRefusal.TheVariants as refusals;

    ghost from_gives = { λ _ refusal. refusal ≡ refusals.NoMemory };

    fn from(_error: AllocError) -> StartRefusal {
        StartRefusal::NoMemory
    }
}

impl From<NoMemory> for StartRefusal {
    ghost use Rattle.std.specs.Prelude.{◌≡◌};
    ghost use Rattle.interleaving.specs.declared.refusal.StartRefusal.TheVariants as refusals;

    ghost from_gives = { λ _ refusal. refusal ≡ refusals.NoMemory };

    fn from(_error: NoMemory) -> StartRefusal {
        StartRefusal::NoMemory
    }
}
