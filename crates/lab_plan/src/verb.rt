//! What a command does to an instrument's dial.
ghost use Rattle.std.specs.Prelude.{IsTrue, ◌↔◌};

use crate::limits::LARGEST_NUMBER;

/// What a command does to the dial of its instrument, whose numbers go from 0 to `LARGEST_NUMBER`.
#[derive(Clone, Copy, PartialEq, Eq, Debug)]
pub enum Verb {
    /// Turns the dial to this number.
    Set(u32),
    /// Adds this number to the dial, modulo 1000000.
    Add(u32),
    /// Leaves the dial as it is.
    Read,
}

impl Verb {
    ghost use Rattle.lab_plan.specs.Verbs.{Fits};

    /// Whether the number, if there is one, is one of the dial's.
    pub fn fits(self) -> bool
        ensures { IsTrue result ↔ Fits self }
    {
        match self {
            Verb::Set(number) | Verb::Add(number) => number <= LARGEST_NUMBER,
            Verb::Read => true,
        }
    }
}
