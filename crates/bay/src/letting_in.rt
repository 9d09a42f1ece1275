//! All are let in that may be.
ghost use Rattle.std.specs.Prelude.{◌≤◌, length};
ghost use Rattle.bay.specs.Cores.{core, IsTied, NobodyWaits};
ghost use Rattle.bay.specs.Following.{WaitsSomewhere, Holds, LetsAllIn};

use crate::classes::Class;
use crate::free::free_classes;
use bay_book::Book;
use bay_line::Line;

/// The ask with this number, which waits, holds these instruments from this moment on.
fn hold(book: &mut Book, number: u64, needs: u64, now: u64, keeps: bool)
    requires { WaitsSomewhere book.old.asks number }
    ensures { Holds number needs now keeps book.old book.new }
{
    match book.place_of(number) {
        Some(place) => book.hold(place, needs, now, keeps),
        None => unreachable!(),
    }
}

/// All are let in that may be.
pub(crate) fn let_in_all(classes: &[Class], keeps: bool, line: &mut Line, book: &mut Book, now: u64)
    requires few { length classes.now ≤ 32 }
    requires tied { IsTied classes.now (core line.old book.old) }
    ensures all { LetsAllIn classes.now now keeps (core line.old book.old) (core line.new book.new) }
    ensures tied { IsTied classes.now (core line.new book.new) }
    ensures nobody { NobodyWaits classes.now (core line.new book.new) }
{
    loop {
        if line.len() == 0 {
            return;
        }
        let free = free_classes(classes, book);
        let used = book.in_use();
        let Some((place, seated)) = line.next(used, free) else {
            return;
        };
        let _ = place;
        book.is_sound();
        hold(book, seated.ask, seated.needs, now, keeps);
        line.go(seated, free);
    }
}
