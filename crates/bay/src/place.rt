//! How far the ask with a number is.
ghost use Rattle.std.specs.Prelude.{◌≡◌, ◌<◌, ◌↔◌, length, IsTrue};
ghost use Rattle.bay_book.specs.declared.ask.Heard.TheVariants.{Holds as HeardHolds};
ghost use Rattle.bay_book.specs.Asks.{ask_at};
ghost use Rattle.bay.specs.Standings.{IsStanding, IsStandingAt, HoldsTold, MarksGone, MarksBack};

use bay_book::{Ask, Book, Heard, Stage};

/// Where an ask stands in the book, if it isn't over.
#[derive(Clone, Copy)]
pub(crate) enum Place {
    /// It is over, or nobody ever asked so.
    Over,
    /// It waits.
    Waits(usize),
    /// It holds.
    Holds(usize),
}

/// How far the ask at this place is.
fn standing_at(book: &Book, place: usize) -> Place
    requires { place < length book.now.asks }
    ensures { IsStandingAt (ask_at book.now.asks place).stage place result }
{
    match book.ask_at(place).stage {
        Stage::Waits => Place::Waits(place),
        Stage::Holds => Place::Holds(place),
        Stage::Over(_) => Place::Over,
    }
}

/// How far the ask with this number is.
pub(crate) fn place_of(book: &Book, number: u64) -> Place
    ensures { IsStanding book.now.asks number result }
{
    match book.place_of(number) {
        None => Place::Over,
        Some(place) => standing_at(book, place),
    }
}

/// Whether the ask was told that it holds.
fn heard_that_it_holds(heard: Heard) -> bool
    ensures { IsTrue result ↔ (heard ≡ HeardHolds) }
{
    match heard {
        Heard::Nothing => false,
        Heard::Holds => true,
        Heard::End => false,
    }
}

/// Whether the ask holds, and was told so.
fn is_told(ask: Ask) -> bool
    ensures { IsTrue result ↔ ((ask.stage ≡ Stage.Holds) × (ask.heard ≡ HeardHolds)) }
{
    match ask.stage {
        Stage::Waits => false,
        Stage::Holds => heard_that_it_holds(ask.heard),
        Stage::Over(_) => false,
    }
}

/// Whether the ask with this number holds, and was told so.
pub(crate) fn holds_told(book: &Book, number: u64) -> bool
    ensures { IsTrue result ↔ HoldsTold book.now.asks number }
{
    match book.place_of(number) {
        None => false,
        Some(place) => is_told(book.ask_at(place)),
    }
}

/// The client of the ask with this number is gone since this moment, if it is in the book.
pub(crate) fn mark_gone(book: &mut Book, number: u64, moment: u64)
    ensures { MarksGone number moment book.old book.new }
{
    match book.place_of(number) {
        None => {}
        Some(place) => book.set_gone(place, moment),
    }
}

/// The client of the ask with this number is there again, if the ask isn't over and is this owner's. Answers what it holds. For the owner 0, who is
/// nobody, there is no coming back.
pub(crate) fn mark_back(book: &mut Book, number: u64, owner: u128) -> Option<u64>
    ensures { MarksBack number owner book.old result book.new }
{
    if owner == 0 {
        return None;
    }
    let place = match place_of(book, number) {
        Place::Over => return None,
        Place::Waits(place) => place,
        Place::Holds(place) => place,
    };
    let ask = book.ask_at(place);
    if ask.owner != owner {
        return None;
    }
    book.is_back(place);
    Some(ask.needs)
}
