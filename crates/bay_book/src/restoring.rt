//! Who may hold again.
ghost use Rattle.std.specs.Prelude.{◌≡◌, false, IsTrue};
ghost use Rattle.bay_book.specs.Asks.{is_waiting};
ghost use Rattle.bay_book.specs.Restoring.{is_against, MayBeRestored, MayNotBeRestored};

use crate::ask::{Ask, Stage};

/// Why an ask doesn't hold again. Nothing changed then.
#[derive(Clone, Copy, PartialEq, Eq, Debug)]
pub enum NotRestored {
    /// There is no memory.
    NoMemory,
    /// Somebody waits; or it has the last of all numbers, or one that isn't larger than that of each ask in the book; or no token, or one that an ask in the
    /// book has.
    MayNot,
}

/// Whether it waits.
fn is_waiting(ask: Ask) -> bool
    ensures { result ≡ is_waiting ask }
{
    match ask.stage {
        Stage::Waits => true,
        Stage::Holds => false,
        Stage::Over(_) => false,
    }
}

/// Whether the ask speaks against one with this number and this token.
fn is_against(ask: Ask, number: u64, token: u64) -> bool
    ensures { result ≡ is_against number token ask }
{
    number <= ask.number || is_waiting(ask) || ask.token == token
}

/// Whether one with this number and this token may hold again.
pub(crate) fn may_be_restored(asks: &[Ask], number: u64, token: u64) -> bool
    ensures may { IsTrue result → MayBeRestored asks.now number token }
    ensures may_not { result ≡ false → MayNotBeRestored asks.now number token }
{
    if number == u64::MAX {
        return false;
    }
    if token == 0 {
        return false;
    }
    for place in 0..asks.len() {
        if is_against(asks[place], number, token) {
            return false;
        }
    }
    true
}
