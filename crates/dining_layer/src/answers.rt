//! What became of a move.
ghost use Rattle.std.specs.Prelude.{◌≡◌};
ghost use Rattle.dining_layer.specs.Tries.{tried_as};

use edge_rule::Stepped;
use edge_word::EdgeWord;

/// What became of a move.
#[must_use]
#[derive(Clone, Copy, PartialEq, Eq, Debug)]
pub enum Tried {
    /// It was done.
    Done,
    /// Lost: it was legal by the word last seen, but another job changed the word first, to the edge told here; nothing was done.
    /// It isn't called so, because callers know this answer as `Moved`: the edge has moved on.
    Moved(EdgeWord),
    /// It isn't legal by the word last seen.
    NotLegal,
}

/// The answer for an exchange that was tried.
pub fn answered(stepped: Stepped) -> Tried
    ensures { result ≡ tried_as stepped }
{
    match stepped {
        Stepped::Done => Tried::Done,
        Stepped::Moved(found) => Tried::Moved(found),
    }
}
