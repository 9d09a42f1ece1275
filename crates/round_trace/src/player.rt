//! A job that takes turns, and its count of patience.
ghost use Rattle.std.specs.Prelude.{◌≡◌};
ghost use Rattle.turns.specs.Patience.{is_waiting, no_wait, waited_in};
ghost use Rattle.round_trace.specs.Players.{waits, player_of, waited_then};

use lab_plan::JobNo;
use legal_steps::{Drinking, JobState};

/// A job, and in how many of its turns the session with this number was thirsty at the start and at the end.
#[derive(Clone, Copy, PartialEq, Eq, Debug)]
pub(crate) struct Player {
    pub(crate) job: JobNo,
    pub(crate) turns: u32,
    pub(crate) session: u32,
}

/// A player before its first turn.
pub(crate) fn fresh(job: JobNo) -> Player
    ensures { player_of result ≡ record { job = job; waited = no_wait } }
{
    Player {
        job,
        turns: 0,
        session: 0,
    }
}

/// The count of the session with this number.
pub(crate) fn waited_in(player: &Player, session: u32) -> u32
    ensures { result ≡ waited_in (waits player.now) session }
{
    if player.session == session {
        player.turns
    } else {
        0
    }
}

fn is_waiting(drinking: Drinking) -> bool
    ensures { result ≡ is_waiting drinking }
{
    drinking == Drinking::Thirsty
}

/// Counts a turn that left the player's job in the second phase, at whose start it was in the first.
pub(crate) fn note(player: &mut Player, before: JobState, phase: JobState)
    ensures { player_of player.new ≡ record { job = player.old.job; waited = waited_then (waits player.old) (is_waiting before.drinking) phase } }
{
    let so_far = waited_in(player, phase.session);
    player.session = phase.session;
    player.turns = if is_waiting(before.drinking) && is_waiting(phase.drinking) {
        so_far.saturating_add(1)
    } else {
        so_far
    };
}
