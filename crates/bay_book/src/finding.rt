//! What is found in the book.
ghost use Rattle.std.specs.Prelude.{◌≡◌, ◌||◌, ◌&&◌, AllPairs, ◌<◌, ℕ};
ghost use Rattle.std.specs.List.{count_by};
ghost use Rattle.bay_book.specs.Asks.{holds_class, is_holding};
ghost use Rattle.bay_book.specs.Moments.{common, is_gone_too_long, is_over_limit, due_at, limit_due_at};
ghost use Rattle.bay_book.specs.Finding.{IsPlaceOf, IsFirst, IsFirstLate, IsLeast, IsInUse};

use crate::ask::{Ask, End};
use crate::making::is_holding;
use crate::moments::{
    due_at, is_gone_too_long, is_late, is_over_limit, late_end, limit_due_at, sooner,
};

/// The place of the ask with this number.
pub(crate) fn place_of(asks: &[Ask], number: u64) -> Option<usize>
    requires { AllPairs (λ a b. a.number < b.number) asks.now }
    ensures { IsPlaceOf asks.now number result }
{
    // (whoever has just asked is the last)
    let len = asks.len();
    if 0 < len {
        if asks[len - 1].number == number {
            return Some(len - 1);
        }
    }
    for place in 0..len {
        if asks[place].number == number {
            return Some(place);
        }
    }
    None
}

/// The first that has to lapse, and how.
pub(crate) fn first_late(
    asks: &[Ask],
    now: u64,
    durable: u64,
    disk: Option<u64>,
) -> Option<(usize, End)>
    ensures { IsFirstLate now durable disk asks.now result }
{
    for place in 0..asks.len() {
        let ask = asks[place];
        if is_late(ask, now, durable, disk) {
            return Some((place, late_end(ask.stage)));
        }
    }
    None
}

/// The first whose client is gone for too long.
pub(crate) fn first_gone(asks: &[Ask], now: u64, grace: Option<u64>) -> Option<usize>
    ensures { IsFirst (is_gone_too_long now grace) asks.now result }
{
    for place in 0..asks.len() {
        if is_gone_too_long(asks[place], now, grace) {
            return Some(place);
        }
    }
    None
}

/// The first whose limit is over, if somebody waits for what it has.
pub(crate) fn first_over_limit(asks: &[Ask], now: u64, wanted: u64, full: u32) -> Option<usize>
    ensures { IsFirst (is_over_limit now wanted full) asks.now result }
{
    for place in 0..asks.len() {
        if is_over_limit(asks[place], now, wanted, full) {
            return Some(place);
        }
    }
    None
}

/// The next moment at which a wait, the disk's time or a grace is over.
pub(crate) fn due(asks: &[Ask], grace: Option<u64>, durable: u64, disk: Option<u64>) -> Option<u64>
    ensures { IsLeast (due_at grace durable disk) asks.now result }
{
    let mut least = None;
    for place in 0..asks.len() {
        least = sooner(least, due_at(asks[place], grace, durable, disk));
    }
    least
}

/// The next moment at which a limit is over, of those for whose place or instruments somebody waits.
pub(crate) fn limit_due(asks: &[Ask], wanted: u64, full: u32) -> Option<u64>
    ensures { IsLeast (limit_due_at wanted full) asks.now result }
{
    let mut least = None;
    for place in 0..asks.len() {
        least = sooner(least, limit_due_at(asks[place], wanted, full));
    }
    least
}

/// With the instruments of one, if it holds.
fn with_needs(set: u64, ask: Ask) -> u64
    ensures { (x : ℕ) → common x result ≡ (common x set || is_holding ask.stage && common x ask.needs) }
{
    if is_holding(ask.stage) {
        set | ask.needs
    } else {
        set
    }
}

/// All instruments of those that hold.
pub(crate) fn in_use(asks: &[Ask]) -> u64
    ensures { IsInUse asks.now result }
{
    let mut set = 0;
    for place in 0..asks.len() {
        set = with_needs(set, asks[place]);
    }
    set
}

/// Whether it holds, and its place is of this class.
fn holds_class(ask: Ask, class: u32) -> bool
    ensures { result ≡ holds_class class ask }
{
    is_holding(ask.stage) && ask.class == class
}

/// How many of this class hold.
pub(crate) fn taken(asks: &[Ask], class: u32) -> usize
    ensures { result ≡ count_by (holds_class class) asks.now }
{
    let mut count = 0;
    for place in 0..asks.len() {
        if holds_class(asks[place], class) {
            count += 1;
        }
    }
    count
}
