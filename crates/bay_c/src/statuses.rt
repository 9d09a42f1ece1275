//! The statuses.
ghost use Rattle.std.specs.Prelude.{◌≡◌};
ghost use Rattle.bay_c.specs.Telling.{refusal_status, not_held_status, not_opened_status, not_noted_status, not_back_status, not_back_number};
ghost use Rattle.bay_c.specs.Telling.{not_turned_status, not_turned_size, not_turned_number};

use bay::{NotAsked, NotBack, NotHeld, NotNoted, NotOpened, NotTurned};

/// The status if there is no memory.
pub(crate) const NO_MEMORY: u32 = 5;

/// The status if there is nothing to tell.
pub(crate) const NOTHING: u32 = 8;

/// The status if the ask is over, or nobody ever asked so.
pub(crate) const OVER: u32 = 26;

/// The status if the caller's room is too small.
pub(crate) const NO_ROOM: u32 = 6;

/// The status that says why nobody asks.
pub(crate) fn refusal_status(why: NotAsked) -> u32
    ensures { result ≡ refusal_status why }
{
    match why {
        NotAsked::Stopped => 21,
        NotAsked::Number => 20,
        NotAsked::NoClass => 22,
        NotAsked::Empty => 23,
        NotAsked::MayNotUse => 24,
        NotAsked::OwnerTaken => 29,
        NotAsked::LineFull => 25,
        NotAsked::NoMemory => NO_MEMORY,
    }
}

/// The status that says why an ask doesn't do that.
pub(crate) fn not_held_status(why: NotHeld) -> u32
    ensures { result ≡ not_held_status why }
{
    match why {
        NotHeld::Waits => 8,
        NotHeld::Over => OVER,
    }
}

/// The status that says why there is no bay.
pub(crate) fn not_opened_status(why: NotOpened) -> u32
    ensures { result ≡ not_opened_status why }
{
    match why {
        NotOpened::Classes => 22,
        NotOpened::NoMemory => NO_MEMORY,
    }
}

/// The status that says why nothing is noted.
pub(crate) fn not_noted_status(why: NotNoted) -> u32
    ensures { result ≡ not_noted_status why }
{
    match why {
        NotNoted::NotHeld => 8,
        NotNoted::NoText => 24,
        NotNoted::NoMemory => NO_MEMORY,
    }
}

/// The status that says why no bay comes back.
pub(crate) fn not_back_status(why: NotBack) -> u32
    ensures { result ≡ not_back_status why }
{
    match why {
        NotBack::NoMemory => NO_MEMORY,
        NotBack::NoPlace => 28,
        NotBack::Line(_) => 28,
        NotBack::Another => 27,
        NotBack::Classes => 22,
        NotBack::MayNot(_) => 24,
    }
}

/// The line that isn't sound, or the number of the ask that may not hold; else 0.
pub(crate) fn not_back_number(why: NotBack) -> u64
    ensures { result ≡ not_back_number why }
{
    match why {
        NotBack::NoMemory => 0,
        NotBack::NoPlace => 0,
        NotBack::Line(number) => number as u64,
        NotBack::Another => 0,
        NotBack::Classes => 0,
        NotBack::MayNot(ask) => ask,
    }
}

/// The status that says why a bay doesn't go on in a new file.
pub(crate) fn not_turned_status(why: NotTurned) -> u32
    ensures { result ≡ not_turned_status why }
{
    match why {
        NotTurned::Classes => 22,
        NotTurned::NotYet => 8,
        NotTurned::MayNot(_) => 24,
        NotTurned::NoRoom(_) => NO_ROOM,
        NotTurned::NoMemory => NO_MEMORY,
    }
}

/// How long the text is for which there is no room; else what was told before.
pub(crate) fn not_turned_size(told: usize, why: NotTurned) -> usize
    ensures { result ≡ not_turned_size told why }
{
    match why {
        NotTurned::Classes => told,
        NotTurned::NotYet => told,
        NotTurned::MayNot(_) => told,
        NotTurned::NoRoom(size) => size,
        NotTurned::NoMemory => told,
    }
}

/// The number of the ask that may not go on; else what was told before.
pub(crate) fn not_turned_number(told: u64, why: NotTurned) -> u64
    ensures { result ≡ not_turned_number told why }
{
    match why {
        NotTurned::Classes => told,
        NotTurned::NotYet => told,
        NotTurned::MayNot(ask) => ask,
        NotTurned::NoRoom(_) => told,
        NotTurned::NoMemory => told,
    }
}
