//! Who goes in.
ghost use Rattle.std.specs.Prelude.{◌≡◌};
ghost use Rattle.bay_line.specs.Turns.{pass_all, others};
ghost use Rattle.bay_line.specs.Lines.{Rises, IsChosen, GoIn};

use crate::first::{class_for, first};
use crate::passing::{pass_all, remove};
use crate::wish::Wish;
use std::alloc::Global;

/// Who is let in.
#[derive(Clone, Copy)]
pub struct Seated {
    /// The number of the ask.
    pub ask: u64,
    /// The instruments that it is to hold: those of one of its sets.
    pub needs: u64,
    /// The class of the place that it gets.
    pub class: u32,
    /// Until when it is to be told that it holds.
    pub deadline: Option<u64>,
}

/// The first that may be let in, if there is one, and what it gets.
pub(crate) fn choose(wishes: &[Wish], most: u32, in_use: u64, free: u32) -> Option<(usize, Seated)>
    requires { Rises wishes.now }
    ensures { IsChosen most in_use free wishes.now result }
{
    let Some(place) = first(wishes, most, in_use, free) else {
        return None;
    };
    let wish = wishes[place];
    let class = class_for(wish, free);
    let seated = Seated {
        ask: wish.ask,
        needs: wish.needs,
        class,
        deadline: wish.deadline,
    };
    Some((place, seated))
}

/// The one at this place, with this number and these needs, is let in.
pub(crate) fn go_at(wishes: &mut Vec<Wish, Global>, most: u32, seated: Seated, free: u32)
    ensures { wishes.new.items ≡ others seated.ask (pass_all most free seated.needs wishes.old.items) }
{
    pass_all(wishes, most, free, seated.needs);
    remove(wishes, seated.ask);
}

/// The first that may be let in goes in, if there is one.
pub(crate) fn go_in(
    wishes: &mut Vec<Wish, Global>,
    most: u32,
    in_use: u64,
    free: u32,
) -> Option<Seated>
    requires { Rises wishes.old.items }
    ensures { GoIn most in_use free wishes.old.items result wishes.new.items }
{
    let Some((_, seated)) = choose(wishes, most, in_use, free) else {
        return None;
    };
    go_at(wishes, most, seated, free);
    Some(seated)
}
