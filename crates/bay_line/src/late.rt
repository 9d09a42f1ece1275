//! Whose time is over.
ghost use Rattle.std.specs.Prelude.{◌≡◌};
ghost use Rattle.bay_line.specs.Lines.{IsLate};

use crate::wish::{Wish, is_late};

/// The first ask in line whose time is over, if there is one.
pub(crate) fn first_late(wishes: &[Wish], now: u64) -> Option<u64>
    ensures { IsLate now wishes.now result }
{
    for place in 0..wishes.len() {
        let wish = wishes[place];
        if is_late(wish, now) {
            return Some(wish.ask);
        }
    }
    None
}
