//! Whose turn it is.
ghost use Rattle.std.specs.Prelude.{◌≡◌, ◌<◌, ℕ, ◌||◌, ◌&&◌, true, false, length};
ghost use Rattle.bay_line.specs.Wishes.{common, is_ready, is_kept};
ghost use Rattle.bay_line.specs.Lines.{Rises};
ghost use Rattle.bay_line.specs.Turns.{AreKept, IsKeptBelow, SaysItsTurn, IsFirst, IsFirstKept, IsFirstOther, IsFreeClass};

use crate::held_back::{is_free, may_go_in};
use crate::wish::{Wish, is_kept};

/// Whether it is one of those for which their instruments are kept, and may be let in.
fn goes_first(wishes: &[Wish], place: usize, most: u32, in_use: u64, kept: u64, free: u32) -> bool
    requires inside { place < length wishes.now }
    requires rises { Rises wishes.now }
    requires kept { AreKept in_use wishes.now (IsKeptBelow most free wishes.now place) kept }
    ensures { SaysItsTurn true most in_use free wishes.now place result }
{
    if !is_kept(wishes[place], most, free) {
        return false;
    }
    if !is_free(wishes[place], in_use, free) {
        return false;
    }
    may_go_in(wishes, place, place, most, in_use, kept, free)
}

/// Whether it is none of them, and may be let in.
fn goes_then(wishes: &[Wish], place: usize, most: u32, in_use: u64, kept: u64, free: u32) -> bool
    requires inside { place < length wishes.now }
    requires rises { Rises wishes.now }
    requires kept { AreKept in_use wishes.now (IsKeptBelow most free wishes.now (length wishes.now)) kept }
    ensures { SaysItsTurn false most in_use free wishes.now place result }
{
    if !is_free(wishes[place], in_use, free) {
        return false;
    }
    if is_kept(wishes[place], most, free) {
        return false;
    }
    may_go_in(wishes, place, wishes.len(), most, in_use, kept, free)
}

/// What is kept from those behind this one, too.
fn kept_with(kept: u64, wish: Wish, most: u32, free: u32) -> u64
    ensures { (x : ℕ) → common x result ≡ (common x kept || is_kept most free wish && common x wish.needs) }
{
    if is_kept(wish, most, free) {
        kept | wish.needs
    } else {
        kept
    }
}

/// The first of those that were passed by as often as may be, if one of them may be let in; and what is in use or kept by any of them.
fn first_kept(wishes: &[Wish], most: u32, in_use: u64, free: u32) -> (Option<usize>, u64)
    requires { Rises wishes.now }
    ensures { IsFirstKept most in_use free wishes.now result }
{
    let mut kept = in_use;
    for place in 0..wishes.len() {
        if goes_first(wishes, place, most, in_use, kept, free) {
            return (Some(place), kept);
        }
        kept = kept_with(kept, wishes[place], most, free);
    }
    (None, kept)
}

/// The first of the others that may be let in, where this is in use or kept.
fn first_other(wishes: &[Wish], most: u32, in_use: u64, kept: u64, free: u32) -> Option<usize>
    requires rises { Rises wishes.now }
    requires kept { AreKept in_use wishes.now (IsKeptBelow most free wishes.now (length wishes.now)) kept }
    ensures { IsFirstOther most in_use free wishes.now result }
{
    for place in 0..wishes.len() {
        if goes_then(wishes, place, most, in_use, kept, free) {
            return Some(place);
        }
    }
    None
}

/// The first that may be let in, if there is one.
pub(crate) fn first(wishes: &[Wish], most: u32, in_use: u64, free: u32) -> Option<usize>
    requires { Rises wishes.now }
    ensures { IsFirst most in_use free wishes.now result }
{
    match first_kept(wishes, most, in_use, free) {
        (Some(place), _) => Some(place),
        (None, kept) => first_other(wishes, most, in_use, kept, free),
    }
}

/// The first class that it may take of which a place is free.
pub(crate) fn class_for(wish: Wish, free: u32) -> u32
    requires { is_ready free wish ≡ true }
    ensures { IsFreeClass free wish result }
{
    (wish.classes & free).trailing_zeros()
}
