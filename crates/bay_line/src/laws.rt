//! What holds of every line. Each law is the contract of a function that does nothing.
ghost use Rattle.bay_line.specs.Chains.{EachReasonEnds};
ghost use Rattle.bay_line.specs.Lines.{NextIsLetIn};
ghost use Rattle.bay_line.specs.Wanted.{IsLateFromFirst};
ghost use Rattle.bay_line.specs.InLine.{StaysInLine, WhatWasAskedStays};
ghost use Rattle.bay_line.specs.Keepers.{EachLacksSomething};
ghost use Rattle.bay_line.specs.Later.{FewLaterGoBefore, NobodyLaterGoesBefore};
ghost use Rattle.bay_line.specs.Bounds.{IsPassedAtMost, WaitsAddUp, IsFirstComeFirstServed, IsServedBefore, NobodyWaitsForNothing, NobodyWaitsForItself};

/// Once nobody is let in any more, nobody waits whose instruments are all free, kept for nobody before it, and for whom a place is free.
pub fn nobody_waits_for_nothing()
    ensures { NobodyWaitsForNothing }
{}

/// Once nobody is let in any more, each reason to wait has an end: no place is free for it; or an instrument of it is in use; or it is held up by one that goes
/// before it, which has such a reason itself, and so on, in no more steps than there are wishes, to one of which an instrument is in use.
pub fn each_reason_ends()
    ensures { EachReasonEnds }
{}

/// So there is somebody to name to each that waits: no place is free for it; or an instrument of one of its sets is in use, or kept for another.
pub fn each_lacks_something()
    ensures { EachLacksSomething }
{}

/// And no ask waits for itself: for each of its sets no place is free; or an instrument of it is in use; or another ask keeps one from it, or stands before it
/// and wants no more.
pub fn nobody_waits_for_itself()
    ensures { NobodyWaitsForItself }
{}

/// While it waits, and a place is free for it, at most `most` that need one of its instruments are let in, and one more for each wish that stood before it when
/// it asked.
pub fn is_passed_at_most()
    ensures { IsPassedAtMost }
{}

/// Of those that asked later, and need one of its instruments, at most `most` are let in before it while a place is free for it.
pub fn few_later_go_before()
    ensures { FewLaterGoBefore }
{}

/// Whoever stands in line when the order is kept is passed by nobody that asked later, from then on, while a place is free for it.
pub fn nobody_later_goes_before()
    ensures { NobodyLaterGoesBefore }
{}

/// What happens in one time and then in another happens in both together.
pub fn waits_add_up()
    ensures { WaitsAddUp }
{}

/// Among those that want the same, on places of the same classes, the first come is served first.
pub fn is_first_come_first_served()
    ensures { IsFirstComeFirstServed }
{}

/// Whoever wants no more than somebody behind it, and may have a place wherever that one may, goes first; unless that one alone was passed by as often as
/// may be.
pub fn is_served_before()
    ensures { IsServedBefore }
{}

/// To see who is next, and to let it go in, is to let it in.
pub fn next_is_let_in()
    ensures { NextIsLetIn }
{}

/// Whoever asks is in line until it leaves, is let in, or its time is over; and all others stay.
pub fn stays_in_line()
    ensures { StaysInLine }
{}

/// What is true of the wishes of each ask when it asks stays true of all that are in line, and of whoever is let in.
pub fn what_was_asked_stays()
    ensures { WhatWasAskedStays }
{}

/// Nobody's time is over before the earliest deadline; and from then on somebody's is.
pub fn is_late_from_first()
    ensures { IsLateFromFirst }
{}
