//! What holds of a book, whatever calls there are. Each law is the contract of a function that does nothing.
ghost use Rattle.bay_book.specs.Runs.{TellsOnce, OverIsLast, StaysToldDurable};
ghost use Rattle.bay_book.specs.Holding.{StaysApart, TakesAtMost, DueIsToCome, LimitIsToCome};

/// Each ask is told at most once that it holds, and at most once that it is over.
pub fn tells_once()
    ensures { TellsOnce }
{}

/// Whoever was told that it is over is told nothing more.
pub fn over_is_last()
    ensures { OverIsLast }
{}

/// Whoever holds and was told so: its line outlives a crash, or none is owed.
pub fn stays_told_durable()
    ensures { StaysToldDurable }
{}

/// As long as each gets only what nobody has, no two that hold have an instrument in common.
pub fn stays_apart()
    ensures { StaysApart }
{}

/// No more of a class hold than before a call, but for the one that it lets hold.
pub fn takes_at_most()
    ensures { TakesAtMost }
{}

/// Once nobody is late, and no grace is over, the next moment at which that is so is to come.
pub fn due_is_to_come()
    ensures { DueIsToCome }
{}

/// Once no limit is over, the next moment at which one is, is to come.
pub fn limit_is_to_come()
    ensures { LimitIsToCome }
{}
