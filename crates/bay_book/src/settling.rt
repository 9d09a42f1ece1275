//! Which asks a book has to look at when it tells somebody, or lets go of those that are done: those that aren't settled.
ghost use Rattle.std.specs.Prelude.{◌≡◌, ℕ, ◌+◌, ◌<◌, ◌≤◌, not, length, filter};
ghost use Rattle.bay_book.specs.Asks.{is_done};
ghost use Rattle.bay_book.specs.Settled.{is_settled_at, AreWithin};

use crate::ask::{Ask, Heard, Stage};
use crate::making::is_done;
use crate::row::Row;

/// Whether there is nothing to tell it, and it isn't done.
fn is_settled(stage: Stage, heard: Heard) -> bool
    ensures { result ≡ is_settled_at stage heard }
{
    match (stage, heard) {
        (Stage::Waits, _) => true,
        (Stage::Holds, Heard::Nothing) => false,
        (Stage::Holds, Heard::Holds) => true,
        (Stage::Holds, Heard::End) => true,
        (Stage::Over(_), _) => false,
    }
}

/// From where to where they stand, if the one at this place is one of them, too.
pub(crate) fn with_place(from: usize, to: usize, place: usize, len: usize) -> (usize, usize)
    requires inside { place < len }
    requires few { to ≤ len }
    ensures few { result.1 ≤ len }
    ensures here { (result.0 ≤ place) × (place < result.1) }
    ensures others { (j : ℕ) → from ≤ j → j < to → (result.0 ≤ j) × (j < result.1) }
{
    if to <= from {
        return (place, place + 1);
    }
    let first = if place < from { place } else { from };
    let behind = if to <= place { place + 1 } else { to };
    (first, behind)
}

/// Where the first of them stands, or the end of where they may stand.
fn first_open(asks: &[Ask], from: usize, to: usize) -> usize
    requires { AreWithin asks.now from to }
    ensures { AreWithin asks.now result to }
{
    for place in from..to {
        if !is_settled(asks[place].stage, asks[place].heard) {
            return place;
        }
    }
    to
}

/// Behind which place the last of them stands.
fn last_open(asks: &[Ask], from: usize, to: usize) -> usize
    requires { AreWithin asks.now from to }
    ensures { AreWithin asks.now from result }
{
    let mut end = to;
    while from < end {
        if !is_settled(asks[end - 1].stage, asks[end - 1].heard) {
            return end;
        }
        end -= 1;
    }
    end
}

/// The only one that isn't settled isn't there any more, if it is done.
fn purge_one(asks: &mut Row, place: usize, end: usize) -> (usize, usize)
    requires one { end ≡ place + 1 }
    requires within { AreWithin asks.old place end }
    ensures items { asks.new ≡ filter (λ a. not (is_done a)) asks.old }
    ensures within { AreWithin asks.new result.0 result.1 }
{
    if is_done(asks.at(place)) {
        asks.remove(place);
        (0, 0)
    } else {
        (place, end)
    }
}

/// Those that are done aren't there any more.
fn purge_all(asks: &mut Row) -> (usize, usize)
    ensures items { asks.new ≡ filter (λ a. not (is_done a)) asks.old }
    ensures within { AreWithin asks.new result.0 result.1 }
{
    asks.purge();
    (0, asks.len())
}

/// Those that are done aren't there any more. Answers from where to where those stand now that aren't settled.
pub(crate) fn purge(asks: &mut Row, from: usize, to: usize) -> (usize, usize)
    requires { AreWithin asks.old from to }
    ensures items { asks.new ≡ filter (λ a. not (is_done a)) asks.old }
    ensures within { AreWithin asks.new result.0 result.1 }
{
    let first = first_open(asks.all(), from, to);
    let end = last_open(asks.all(), first, to);
    if end <= first {
        return (first, end);
    }
    if end - first == 1 {
        purge_one(asks, first, end)
    } else {
        purge_all(asks)
    }
}
