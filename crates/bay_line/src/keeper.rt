//! For whom an instrument is kept from an ask, and for what an ask waits.
ghost use Rattle.std.specs.Prelude.{◌≡◌, ◌<◌};
ghost use Rattle.bay_line.specs.Lines.{Rises};
ghost use Rattle.bay_line.specs.Keepers.{has, IsKeeper, is_behind, SaysBehind, keeps, IsWishFor};

use crate::wish::{Wish, is_kept};

/// Whether the instrument is in the set.
fn has(set: u64, instrument: u32) -> bool
    requires { instrument < 64 }
    ensures { result ≡ has set instrument }
{
    set >> instrument & 1 == 1
}

/// Whether it is a wish of this ask with the instrument, and its instruments aren't kept for it.
fn is_behind(wish: Wish, most: u32, free: u32, ask: u64, instrument: u32) -> bool
    requires { instrument < 64 }
    ensures { result ≡ is_behind most free ask instrument wish }
{
    wish.ask == ask && has(wish.needs, instrument) && !is_kept(wish, most, free)
}

/// Whether there is such a wish.
fn has_behind(wishes: &[Wish], most: u32, free: u32, ask: u64, instrument: u32) -> bool
    requires { instrument < 64 }
    ensures { SaysBehind most free wishes.now ask instrument result }
{
    for place in 0..wishes.len() {
        if is_behind(wishes[place], most, free, ask, instrument) {
            return true;
        }
    }
    false
}

/// Whether the instrument is kept for this wish from the ask, which has such a wish, or hasn't.
fn keeps(wish: Wish, most: u32, free: u32, ask: u64, instrument: u32, behind: bool) -> bool
    requires { instrument < 64 }
    ensures { result ≡ keeps most free ask instrument behind wish }
{
    is_kept(wish, most, free)
        && has(wish.needs, instrument)
        && (wish.ask < ask || behind && wish.ask != ask)
}

/// The first for which the instrument is kept from the ask.
pub(crate) fn keeper(
    wishes: &[Wish],
    most: u32,
    free: u32,
    ask: u64,
    instrument: u32,
) -> Option<u64>
    requires few { instrument < 64 }
    requires rises { Rises wishes.now }
    ensures { IsKeeper most free wishes.now ask instrument result }
{
    let behind = has_behind(wishes, most, free, ask, instrument);
    for place in 0..wishes.len() {
        let wish = wishes[place];
        if keeps(wish, most, free, ask, instrument, behind) {
            return Some(wish.ask);
        }
    }
    None
}

/// The wish of this ask for its set with this place.
pub(crate) fn wish_for(wishes: &[Wish], ask: u64, set: usize) -> Option<Wish>
    ensures { IsWishFor wishes.now ask set result }
{
    let mut before = 0;
    for place in 0..wishes.len() {
        let wish = wishes[place];
        if wish.ask == ask {
            if before == set {
                return Some(wish);
            }
            before += 1;
        }
    }
    None
}
