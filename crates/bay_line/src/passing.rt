//! Who is passed by.
ghost use Rattle.std.specs.Prelude.{◌≡◌, map};
ghost use Rattle.bay_line.specs.Wishes.{passed_most};
ghost use Rattle.bay_line.specs.Turns.{pass_all, others};

use crate::wish::{Wish, passed_by, passed_most};
use std::alloc::Global;

/// All are passed by, as far as they are.
pub(crate) fn pass_all(wishes: &mut [Wish], most: u32, free: u32, needs: u64)
    ensures { wishes.new ≡ pass_all most free needs wishes.old }
{
    for place in 0..wishes.len() {
        wishes[place] = passed_by(wishes[place], most, free, needs);
    }
}

/// All count as passed by as often as may be.
fn pass_most(wishes: &mut [Wish], most: u32)
    ensures { wishes.new ≡ map (passed_most most) wishes.old }
{
    for place in 0..wishes.len() {
        wishes[place] = passed_most(wishes[place], most);
    }
}

/// Nobody that comes later goes before any of them.
pub(crate) fn keep_order(wishes: &mut Vec<Wish, Global>, most: u32)
    ensures { wishes.new.items ≡ map (passed_most most) wishes.old.items }
{
    pass_most(wishes, most);
}

/// The wishes of this ask aren't in line any more.
pub(crate) fn remove(wishes: &mut Vec<Wish, Global>, ask: u64)
    ensures { wishes.new.items ≡ others ask wishes.old.items }
{
    wishes.retain(|wish| wish.ask != ask);
}
