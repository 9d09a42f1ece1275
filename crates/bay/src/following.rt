//! All that follows from a change.
ghost use Rattle.std.specs.Prelude.{◌≡◌, ◌≤◌, ◌<◌, false, length};
ghost use Rattle.bay_book.specs.Asks.{ask_at, is_over};
ghost use Rattle.bay.specs.Cores.{core, ended, IsTied};
ghost use Rattle.bay.specs.Following.{Follows};

use crate::classes::Class;
use crate::ending::{end_at, next_due};
use crate::letting_in::let_in_all;
use crate::terms::Terms;
use bay_book::{Book, End};
use bay_line::Line;

/// All are let in that may be; then the first ends whose time is over, and it begins again; until nothing is due.
pub(crate) fn follow(classes: &[Class], terms: Terms, line: &mut Line, book: &mut Book, now: u64)
    requires few { length classes.now ≤ 32 }
    requires tied { IsTied classes.now (core line.old book.old) }
    ensures follows { Follows classes.now terms now (core line.old book.old) (core line.new book.new) }
    ensures tied { IsTied classes.now (core line.new book.new) }
{
    loop {
        let_in_all(classes, terms.keeps, line, book, now);
        book.is_sound();
        let Some((place, how)) = next_due(classes, terms, line, book, now) else {
            return;
        };
        end_at(line, book, place, how, now);
    }
}

/// The ask at this place is over, and all follows from that.
pub(crate) fn end_and_follow(
    classes: &[Class],
    terms: Terms,
    line: &mut Line,
    book: &mut Book,
    place: usize,
    how: End,
    now: u64,
)
    requires few { length classes.now ≤ 32 }
    requires tied { IsTied classes.now (core line.old book.old) }
    requires inside { place < length book.old.asks }
    requires open { is_over (ask_at book.old.asks place).stage ≡ false }
    ensures follows { Follows classes.now terms now (ended (core line.old book.old) place how now) (core line.new book.new) }
    ensures tied { IsTied classes.now (core line.new book.new) }
{
    book.is_sound();
    end_at(line, book, place, how, now);
    follow(classes, terms, line, book, now);
}
