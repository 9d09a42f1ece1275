//! What holds of every bay. Each law is the contract of a function that does nothing.
ghost use Rattle.bay.specs.Bays.{ToldIsKept, ToldComesBack, LetGoIsKept, PastStaysPast, TokensOutlive, StaysWhole, ComesBack};
ghost use Rattle.bay.specs.EveryCall.{EveryCallHoldsOn};
ghost use Rattle.bay.specs.Keepers.{NobodyWaitsForNobody};
ghost use Rattle.bay.specs.LineLaws.{CallsAreWaited, UrgentKeepsOrder, NobodyWaitsForNothing, NumbersRise, TokensRise};
ghost use Rattle.bay.specs.HeardLaws.{TellsOnce};
ghost use Rattle.bay.specs.TurnLaws.{TurnsKeep, FilesSayTheSame};
ghost use Rattle.bay.specs.Laws.{IsWellHeld, WhoHoldsHoldsOn, WhoWaitsWaitsOn, AnswersInTime, WrittenIsInTime, HaveTokens};

use crate::bay::Bay;
use bay_line::laws::{each_lacks_something, each_reason_ends, next_is_let_in};
use bay_log::laws::{cut_lines_are_read, holds_at_the_cut};

/// No two asks hold one instrument; of each class no more hold than it has places; and each holds what its class may use.
pub fn is_well_held(bay: &Bay)
    ensures { IsWellHeld bay.now.room }
{
    bay.look();
}

/// Whoever holds goes on to hold, whatever others do and whatever time it is, until its own time is over. So it is over every call of the bay, but those that
/// end what it holds.
pub fn who_holds_holds_on()
    ensures others { WhoHoldsHoldsOn }
    ensures calls { EveryCallHoldsOn }
{}

/// Whoever waits goes on to wait, or lapses, or comes to hold.
pub fn who_waits_waits_on()
    ensures { WhoWaitsWaitsOn }
{}

/// After each call nobody waits or holds whose time is over.
pub fn answers_in_time()
    ensures { AnswersInTime }
{}

/// A hold that is written isn't over for want of the disk, however late it is told.
pub fn written_is_in_time()
    ensures { WrittenIsInTime }
{}

/// Whoever was told that it holds, and holds still, does so by what is read of the log after a crash.
pub fn told_is_kept(bay: &Bay)
    ensures { ToldIsKept bay.now }
{
    bay.look();
    cut_lines_are_read();
    holds_at_the_cut();
}

/// So it comes back: in the bay that comes back after a crash, it holds what it held.
pub fn told_comes_back(bay: &Bay)
    ensures { ToldComesBack bay.now }
{
    told_is_kept(bay);
}

/// Whoever let go and was told so stays over: after a crash it doesn't hold by what is read of the log, and in the bay that comes back nobody has its number.
pub fn let_go_is_kept(bay: &Bay)
    ensures { LetGoIsKept bay.now }
{
    bay.look();
    cut_lines_are_read();
}

/// So it is from then on, whatever calls there are, also when it isn't in the book any more.
pub fn past_stays_past()
    ensures { PastStaysPast }
{}

/// The log of a bay that keeps one says of the asks what the book does, and its lines are safe, whatever is called.
pub fn stays_whole()
    ensures { StaysWhole }
{}

/// From its own lines a bay comes back, unless there is no memory.
pub fn comes_back(bay: &Bay)
    ensures { ComesBack bay.now }
{
    bay.look();
    let _ = bay.next_number();
    cut_lines_are_read();
}

/// Each call is a time in which whoever is in line behind it waits. So the line's laws say by how many it is passed.
pub fn calls_are_waited()
    ensures { CallsAreWaited }
{
    next_is_let_in();
}

/// From an urgent ask on, nobody that asked later goes before it, nor before anybody that stands in line with it.
pub fn urgent_keeps_order()
    ensures { UrgentKeepsOrder }
{
    next_is_let_in();
}

/// In a new file, and with other classes, what was held stays held, and who waits goes on to wait.
pub fn turns_keep()
    ensures { TurnsKeep }
{
    next_is_let_in();
}

/// The old file and the new one say the same.
pub fn files_say_the_same()
    ensures { FilesSayTheSame }
{}

/// After each call, whoever is in line has a reason to wait: no place is free for it, or it leads to an instrument that somebody holds.
pub fn nobody_waits_for_nothing()
    ensures { NobodyWaitsForNothing }
{
    each_reason_ends();
}

/// After each call there is somebody to name to whoever is in line: no place is free for it, or somebody keeps an instrument of one of its sets from it.
pub fn nobody_waits_for_nobody()
    ensures { NobodyWaitsForNobody }
{
    each_lacks_something();
}

/// A number is given once.
pub fn numbers_rise()
    ensures { NumbersRise }
{}

/// Tokens rise: whoever is let in by a call has a larger one than everybody that was let in before.
pub fn tokens_rise()
    ensures { TokensRise }
{}

/// Of two asks that hold, or held, tokens differ, and none is larger than the largest so far.
pub fn tokens_differ(bay: &Bay)
    ensures { HaveTokens bay.now.room.book }
{
    bay.look();
}

/// After a crash, too, whoever is let in has a larger token than everybody that was ever told that it holds.
pub fn tokens_outlive(bay: &Bay)
    ensures { TokensOutlive bay.now }
{
    bay.look();
    cut_lines_are_read();
    holds_at_the_cut();
}

/// Each ask is told at most once that it holds.
pub fn tells_once()
    ensures { TellsOnce }
{}
