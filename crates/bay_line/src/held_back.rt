//! Whether a wish may be let in, or what holds it back.
ghost use Rattle.std.specs.Prelude.{◌≡◌, ◌<◌, ◌≤◌, true, length};
ghost use Rattle.bay_line.specs.Wishes.{wish_at, common};
ghost use Rattle.bay_line.specs.Lines.{Rises};
ghost use Rattle.bay_line.specs.Turns.{is_free, holds_back, is_elder, AreKept, IsKeptBelow, MayKeep};
ghost use Rattle.bay_line.specs.Turns.{SaysFirst, SaysLast, SaysAlone, SaysElder, SaysHeldBack, SaysOnlyItsOwn, SaysMayGo};

use crate::wish::{Wish, is_kept, is_ready};

/// Whether something is in both sets.
fn common(a: u64, b: u64) -> bool
    ensures { result ≡ common a b }
{
    a & b != 0
}

/// Whether this one of another ask keeps an instrument from the wish.
fn holds_back(wish: Wish, other: Wish, most: u32, free: u32) -> bool
    ensures { result ≡ holds_back most free wish other }
{
    is_kept(other, most, free) && other.ask != wish.ask && common(wish.needs, other.needs)
}

/// Whether one of the first so many does so.
fn is_held_back(wishes: &[Wish], place: usize, end: usize, most: u32, free: u32) -> bool
    requires inside { place < length wishes.now }
    requires few { end ≤ length wishes.now }
    ensures { SaysHeldBack most free wishes.now place end result }
{
    for other in 0..end {
        if holds_back(wishes[place], wishes[other], most, free) {
            return true;
        }
    }
    false
}

/// Whether this one of another ask, which stands before the wish, wants no more.
fn is_elder(wish: Wish, other: Wish, most: u32, free: u32) -> bool
    ensures { result ≡ is_elder most free wish other }
{
    other.ask != wish.ask
        && other.needs & wish.needs == other.needs
        && wish.classes & other.classes == wish.classes
        && (is_kept(other, most, free) || !is_kept(wish, most, free))
}

/// Whether somebody else stands before it and wants no more.
fn has_elder(wishes: &[Wish], place: usize, most: u32, free: u32) -> bool
    requires { place < length wishes.now }
    ensures { SaysElder most free wishes.now place result }
{
    for other in 0..place {
        if is_elder(wishes[place], wishes[other], most, free) {
            return true;
        }
    }
    false
}

/// Whether no wish of its ask stands before it: the wishes of an ask stand next to one another.
fn is_first(wishes: &[Wish], place: usize) -> bool
    requires inside { place < length wishes.now }
    requires rises { Rises wishes.now }
    ensures { SaysFirst wishes.now place result }
{
    if place == 0 {
        return true;
    }
    wishes[place - 1].ask != wishes[place].ask
}

/// Whether none stands behind it.
fn is_last(wishes: &[Wish], place: usize) -> bool
    requires inside { place < length wishes.now }
    requires rises { Rises wishes.now }
    ensures { SaysLast wishes.now place result }
{
    if place == wishes.len() - 1 {
        return true;
    }
    wishes[place + 1].ask != wishes[place].ask
}

/// Whether no other wish of its ask is in line.
fn is_alone(wishes: &[Wish], place: usize) -> bool
    requires inside { place < length wishes.now }
    requires rises { Rises wishes.now }
    ensures { SaysAlone wishes.now place result }
{
    if !is_first(wishes, place) {
        return false;
    }
    is_last(wishes, place)
}

/// Whether none of the first so many holds it back but those of its own ask, and nobody else stands before it and wants no more.
fn only_its_own(wishes: &[Wish], place: usize, end: usize, most: u32, free: u32) -> bool
    requires inside { place < length wishes.now }
    requires few { end ≤ length wishes.now }
    requires rises { Rises wishes.now }
    ensures { SaysOnlyItsOwn most free wishes.now place end result }
{
    // (most asks have one set)
    if is_alone(wishes, place) {
        return false;
    }
    if is_held_back(wishes, place, end, most, free) {
        return false;
    }
    !has_elder(wishes, place, most, free)
}

/// Whether a place is free for it, and all its instruments are.
pub(crate) fn is_free(wish: Wish, in_use: u64, free: u32) -> bool
    ensures { result ≡ is_free in_use free wish }
{
    is_ready(wish, free) && !common(wish.needs, in_use)
}

/// Whether it may be let in, where this is in use or kept by any of the first so many.
pub(crate) fn may_go_in(
    wishes: &[Wish],
    place: usize,
    end: usize,
    most: u32,
    in_use: u64,
    kept: u64,
    free: u32,
) -> bool
    requires inside { place < length wishes.now }
    requires rises { Rises wishes.now }
    requires free { is_free in_use free (wish_at wishes.now place) ≡ true }
    requires others { MayKeep most free wishes.now place end }
    requires kept { AreKept in_use wishes.now (IsKeptBelow most free wishes.now end) kept }
    ensures { SaysMayGo most in_use free wishes.now place result }
{
    if !common(wishes[place].needs, kept) {
        return true;
    }
    only_its_own(wishes, place, end, most, free)
}
