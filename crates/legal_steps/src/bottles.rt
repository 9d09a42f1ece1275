//! Sets of bottles, as the bits of a number.
ghost use Rattle.std.specs.Prelude.{◌≡◌, ◌<◌, ◌↔◌, IsTrue};
ghost use Rattle.legal_steps.specs.State.{Has, bottle_end as end_of_bottle};

use crate::end::End;

/// Whether the bottle is in the set.
#[tactic(auto, unfolding(crate::specs::State::Has))]
pub fn has(set: u32, bottle: u32) -> bool
    requires { bottle < 32 }
    ensures { IsTrue result ↔ Has set bottle }
{
    (set >> bottle) & 1 == 1
}

/// The end at which the bottle is, by the set of those at the higher end.
#[tactic(auto, unfolding(crate::specs::State::bottle_end))]
pub fn bottle_end(set: u32, bottle: u32) -> End
    requires { bottle < 32 }
    ensures { result ≡ end_of_bottle set bottle }
{
    if (set >> bottle) & 1 == 0 {
        End::Lower
    } else {
        End::Higher
    }
}
