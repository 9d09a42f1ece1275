//! Lines that contracts alone see. They take no bytes, and nothing happens to them at run time.
ghost use Rattle.std.specs.Prelude.{◌≡◌, List, [], ◌∷◌, ◌++◌};
ghost use Rattle.std.specs.Borrow.{ftrue};
ghost use Rattle.bay_log.specs.declared.line.Line.{Line as ALine};

use crate::line::Line;
use crate::reading::Found;
use std::marker::Model;

/// Lines in the order in which they were added, known to contracts alone.
#[derive(Drop)]
pub struct Past {
    pub ghost lines: { List ALine },
}

impl Model for Past {
    ghost also_owns = { λ _. ftrue };
}

impl Past {
    /// One line.
    pub fn of(_line: &Line) -> Past
        ensures { result.lines ≡ _line.now ∷ [] }
    {
        Past {}
    }

    /// The lines that were read.
    pub fn read(_found: &Found) -> Past
        ensures { result.lines ≡ _found.now.lines.items }
    {
        Past {}
    }

    /// One line more.
    pub fn after(_before: &Past, _line: &Line) -> Past
        ensures { result.lines ≡ _before.now.lines ++ _line.now ∷ [] }
    {
        Past {}
    }
}
