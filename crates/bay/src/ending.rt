//! Who ends.
ghost use Rattle.std.specs.Prelude.{◌≡◌, ◌≤◌, ◌<◌, true, false, None, length};
ghost use Rattle.bay_book.specs.Asks.{ask_at, is_over};
ghost use Rattle.bay.specs.Cores.{core, ended, IsTied};
ghost use Rattle.bay.specs.Following.{IsFull, AreFull, IsFirstOverLimit, IsFirstDue};

use crate::classes::Class;
use crate::free::free_classes;
use crate::terms::Terms;
use bay_book::{Book, End};
use bay_line::Line;

/// The classes of which somebody waits for a place, and none is free.
pub(crate) fn full_classes(classes: &[Class], line: &Line, book: &Book) -> u32
    requires { length classes.now ≤ 32 }
    ensures { AreFull classes.now (core line.now book.now) result }
{
    let wanted = line.classes();
    wanted ^ (wanted & free_classes(classes, book))
}

/// The first that holds for longer than it may while somebody waits for what it has.
fn first_over_limit(classes: &[Class], line: &Line, book: &Book, now: u64) -> Option<usize>
    requires { length classes.now ≤ 32 }
    ensures { IsFirstOverLimit classes.now now (core line.now book.now) result }
{
    if line.len() == 0 {
        return None;
    }
    book.first_over_limit(now, line.wanted(), full_classes(classes, line, book))
}

/// The first whose time is over, and how it ends.
pub(crate) fn first_due(
    classes: &[Class],
    terms: Terms,
    line: &Line,
    book: &Book,
    now: u64,
) -> Option<(usize, End)>
    requires { length classes.now ≤ 32 }
    ensures { IsFirstDue classes.now terms now (core line.now book.now) result }
{
    match book.first_gone(now, terms.grace) {
        Some(place) => Some((place, End::Grace)),
        None => match first_over_limit(classes, line, book, now) {
            Some(place) => Some((place, End::Limit)),
            None => book.first_late(now, terms.disk),
        },
    }
}

/// Whether no hold ends by these terms alone.
fn end_nobody(terms: Terms) -> bool
    ensures { result ≡ true → (terms.grace ≡ None) × (terms.disk ≡ None) }
{
    match (terms.grace, terms.disk) {
        (None, None) => true,
        (None, Some(_)) => false,
        (Some(_), _) => false,
    }
}

/// The first whose time is over, and how it ends. Where nobody waits, and no hold ends by the terms alone, nobody is looked at.
pub(crate) fn next_due(
    classes: &[Class],
    terms: Terms,
    line: &Line,
    book: &Book,
    now: u64,
) -> Option<(usize, End)>
    requires few { length classes.now ≤ 32 }
    requires tied { IsTied classes.now (core line.now book.now) }
    ensures { IsFirstDue classes.now terms now (core line.now book.now) result }
{
    if line.len() == 0 {
        if end_nobody(terms) {
            return None;
        }
    }
    first_due(classes, terms, line, book, now)
}

/// The ask at this place is over from this moment on, and isn't in line any more.
pub(crate) fn end_at(line: &mut Line, book: &mut Book, place: usize, how: End, now: u64)
    requires inside { place < length book.old.asks }
    requires open { is_over (ask_at book.old.asks place).stage ≡ false }
    ensures { core line.new book.new ≡ ended (core line.old book.old) place how now }
{
    line.leave(book.ask_at(place).number);
    book.end(place, how, now);
}
