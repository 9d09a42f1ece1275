//! The classes of which a place is free.
ghost use Rattle.std.specs.Prelude.{◌≡◌, ◌↔◌, ◌<◌, ◌≤◌, length, IsTrue};
ghost use Rattle.bay_book.specs.Asks.{is_holding};
ghost use Rattle.bay.specs.Cores.{IsFreeClass, AreFree};

use crate::classes::{Class, class_bit};
use bay_book::{Book, Stage};

/// Whether a place of the class is free.
pub(crate) fn is_free(classes: &[Class], book: &Book, class: usize) -> bool
    requires inside { class < length classes.now }
    requires few { length classes.now ≤ 32 }
    ensures { IsTrue result ↔ IsFreeClass classes.now book.now.asks class }
{
    book.taken(class as u32) < classes[class].places as usize
}

/// Whether it holds.
pub(crate) fn is_holding(stage: Stage) -> bool
    ensures { result ≡ is_holding stage }
{
    matches!(stage, Stage::Holds)
}

/// The classes of which a place is free.
pub(crate) fn free_classes(classes: &[Class], book: &Book) -> u32
    requires { length classes.now ≤ 32 }
    ensures { AreFree classes.now book.now.asks result }
{
    let taken = book.taken_of_each();
    let mut free = 0u32;
    for class in 0..classes.len() {
        if taken[class] < classes[class].places as usize {
            free |= class_bit(class as u32);
        }
    }
    free
}
