//! What is told.
ghost use Rattle.std.specs.Prelude.{◌≡◌};
ghost use Rattle.bay.specs.Tellings.{is_still_told, TellsOne, TellsNext};

use bay_book::{Book, Outcome};

/// What an ask is told. It stays to be told until its serial number is given back as done.
#[derive(Clone, Copy)]
pub struct Told {
    /// Larger than each before it.
    pub serial: u64,
    /// The number of the ask.
    pub number: u64,
    /// What it is told.
    pub outcome: Outcome,
    /// The instruments that it holds.
    pub needs: u64,
    /// Its token: larger than that of each ask that was let in before it. 0, if it wasn't let in.
    pub token: u64,
}

/// Whether it was told, and isn't done yet.
pub(crate) fn is_still_told(telling: Option<Told>, done: u64) -> bool
    ensures { result ≡ is_still_told done telling }
{
    match telling {
        None => false,
        Some(told) => told.serial != done,
    }
}

/// The next is told what it is to be told, with this serial number.
fn tell_one(book: &mut Book, serial: u64) -> Option<Told>
    ensures { TellsOne serial book.old result book.new }
{
    let Some((place, outcome)) = book.next_to_tell() else {
        return None;
    };
    let ask = book.ask_at(place);
    book.heard(place, outcome);
    Some(Told {
        serial,
        number: ask.number,
        outcome,
        needs: ask.needs,
        token: ask.token,
    })
}

/// The next is told what it is to be told, with the next serial number. If there is nothing to tell, those that are done aren't in the book any more.
pub(crate) fn tell_next(book: &mut Book, serial: u64) -> (Option<Told>, u64)
    ensures { TellsNext serial book.old result book.new }
{
    if serial == u64::MAX {
        book.purge();
        return (None, serial);
    }
    match tell_one(book, serial + 1) {
        Some(told) => (Some(told), serial + 1),
        None => {
            book.purge();
            (None, serial)
        }
    }
}
