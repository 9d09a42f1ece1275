//! Who keeps an instrument from an ask.
ghost use Rattle.std.specs.Prelude.{◌≡◌, ◌<◌, ◌≤◌, length};
ghost use Rattle.bay.specs.Cores.{core, IsTied};
ghost use Rattle.bay.specs.Keepers.{holds_it, IsHolder, IsAskOf, IsKeeper};

use crate::classes::Class;
use crate::free::{free_classes, is_holding};
use bay_book::{Ask, Book};
use bay_line::Line;

/// Whether the ask holds the instrument.
fn holds_it(ask: Ask, instrument: u32) -> bool
    requires { instrument < 64 }
    ensures { result ≡ holds_it instrument ask }
{
    is_holding(ask.stage) && ask.needs >> instrument & 1 == 1
}

/// Whoever holds the instrument.
fn holder(book: &Book, instrument: u32) -> Option<Ask>
    requires { instrument < 64 }
    ensures { IsHolder book.now instrument result }
{
    for place in 0..book.len() {
        let ask = book.ask_at(place);
        if holds_it(ask, instrument) {
            return Some(ask);
        }
    }
    None
}

/// The ask with this number.
fn ask_of(book: &Book, number: u64) -> Option<Ask>
    ensures { IsAskOf book.now.asks number result }
{
    match book.place_of(number) {
        None => None,
        Some(place) => Some(book.ask_at(place)),
    }
}

/// Who keeps the instrument from the ask with this number.
pub(crate) fn keeper(
    classes: &[Class],
    line: &Line,
    book: &Book,
    number: u64,
    instrument: u32,
) -> Option<Ask>
    requires small { instrument < 64 }
    requires few { length classes.now ≤ 32 }
    requires tied { IsTied classes.now (core line.now book.now) }
    ensures { IsKeeper classes.now (core line.now book.now) number instrument result }
{
    if let Some(ask) = holder(book, instrument) {
        return Some(ask);
    }
    match line.keeper(number, instrument, free_classes(classes, book)) {
        None => None,
        Some(first) => ask_of(book, first),
    }
}
