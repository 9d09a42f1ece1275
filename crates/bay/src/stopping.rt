//! All that wait end.
ghost use Rattle.std.specs.Prelude.{◌≤◌, ◌<◌, length};
ghost use Rattle.bay.specs.Cores.{core, IsTied};
ghost use Rattle.bay.specs.Stopping.{StopsOne, StopsTo};

use crate::classes::Class;
use crate::ending::end_at;
use bay_book::{Book, End, Stage};
use bay_line::Line;

/// If the ask at this place waits, it is over from this moment on.
fn end_if_it_waits(classes: &[Class], line: &mut Line, book: &mut Book, place: usize, now: u64)
    requires inside { place < length book.old.asks }
    requires tied { IsTied classes.now (core line.old book.old) }
    ensures stops { StopsOne now place (core line.old book.old) (core line.new book.new) }
    ensures tied { IsTied classes.now (core line.new book.new) }
{
    book.is_sound();
    let _ = classes.len();
    match book.ask_at(place).stage {
        Stage::Waits => end_at(line, book, place, End::Stopped, now),
        Stage::Holds => {}
        Stage::Over(_) => {}
    }
}

/// All that wait are over from this moment on.
pub(crate) fn end_all_that_wait(classes: &[Class], line: &mut Line, book: &mut Book, now: u64)
    requires { IsTied classes.now (core line.old book.old) }
    ensures stops { StopsTo now (length book.old.asks) (core line.old book.old) (core line.new book.new) }
    ensures tied { IsTied classes.now (core line.new book.new) }
{
    for place in 0..book.len() {
        end_if_it_waits(classes, line, book, place, now);
    }
}
