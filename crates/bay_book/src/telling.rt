//! What is to be told, and to whom first.
ghost use Rattle.std.specs.Prelude.{◌≡◌};
ghost use Rattle.bay_book.specs.Asks.{is_written};
ghost use Rattle.bay_book.specs.Settled.{AreWithin};
ghost use Rattle.bay_book.specs.Telling.{may_say, if_may, to_tell, says_over, IsFirstOf, IsNextToTell};

use crate::ask::{Ask, End, Heard, Mark, Outcome, Stage};

/// Whether no line is owed, or it outlives a crash.
pub(crate) fn is_written(mark: Mark, durable: u64) -> bool
    ensures { result ≡ is_written durable mark }
{
    match mark {
        Mark::None => true,
        Mark::Due => false,
        Mark::At(position) => position <= durable,
    }
}

/// Whether one may be told that it is over so.
fn may_say(line: Mark, how: End, durable: u64) -> bool
    ensures { result ≡ may_say durable line how }
{
    match how {
        End::LetGo => is_written(line, durable),
        End::Left => false,
        End::Lapsed => true,
        End::NotWritten => true,
        End::Limit => true,
        End::Grace => true,
        End::TakenAway => true,
        End::Replaced => true,
        End::Stopped => true,
    }
}

/// That, or nothing.
fn if_may(may: bool, what: Outcome) -> Option<Outcome>
    ensures { result ≡ if_may may what }
{
    if may { Some(what) } else { None }
}

/// What it is to be told now.
fn to_tell(ask: Ask, durable: u64) -> Option<Outcome>
    ensures { result ≡ to_tell durable ask }
{
    match (ask.stage, ask.heard) {
        (Stage::Waits, _) => None,
        (Stage::Holds, Heard::Nothing) => if_may(
            is_written(ask.hold_line, durable),
            Outcome::Holds,
        ),
        (Stage::Holds, Heard::Holds) => None,
        (Stage::Holds, Heard::End) => None,
        (Stage::Over(_), Heard::End) => None,
        (Stage::Over(how), _) => if_may(may_say(ask.end_line, how, durable), Outcome::Over(how)),
    }
}

/// Whether it says that the ask is over.
fn says_over(what: Outcome) -> bool
    ensures { result ≡ says_over what }
{
    match what {
        Outcome::Holds => false,
        Outcome::Over(_) => true,
    }
}

/// The first that is to be told something of this kind, and what: that it is over, or that it holds.
fn first_of(
    asks: &[Ask],
    from: usize,
    to: usize,
    durable: u64,
    over: bool,
) -> Option<(usize, Outcome)>
    requires { AreWithin asks.now from to }
    ensures { IsFirstOf over asks.now durable result }
{
    for place in from..to {
        if let Some(what) = to_tell(asks[place], durable) {
            if says_over(what) == over {
                return Some((place, what));
            }
        }
    }
    None
}

/// The first that is to be told something, and what. Those that are over come before those that hold by that. Only those are looked at that aren't settled.
pub(crate) fn next_to_tell(
    asks: &[Ask],
    from: usize,
    to: usize,
    durable: u64,
) -> Option<(usize, Outcome)>
    requires { AreWithin asks.now from to }
    ensures { IsNextToTell asks.now durable result }
{
    match first_of(asks, from, to, durable, true) {
        Some(found) => Some(found),
        None => first_of(asks, from, to, durable, false),
    }
}
