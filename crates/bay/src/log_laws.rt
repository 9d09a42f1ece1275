//! What holds of book and log together. Each law is the contract of a function that does nothing.
ghost use Rattle.bay.specs.Keeping.{StaysWritten, StaysSafe, GivenIsWritten, ToldIsKept};
ghost use Rattle.bay.specs.Giving.{WritesGive};

/// The log says of the asks what the book does, whatever calls there are.
pub fn stays_written()
    ensures { StaysWritten }
{}

/// The lines stay safe.
pub fn stays_safe()
    ensures { StaysSafe }
{}

/// So it is after lines were given, and by the lines no two hold a common instrument.
pub fn given_is_written()
    ensures { GivenIsWritten }
{}

/// What is owed is given line by line, ends first.
pub fn writes_give()
    ensures { WritesGive }
{}

/// Whoever holds by a file that was cut had a number that was given, and began by a line of it.
pub fn told_by_lines()
    ensures { ToldIsKept }
{}
