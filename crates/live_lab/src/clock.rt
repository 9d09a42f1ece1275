//! What is counted of a job: its turns, and in how many of them its session waited.
ghost use Rattle.std.specs.Prelude.{◌≡◌, ◌<◌, length, slice_index_or};
ghost use Rattle.turns.specs.Patience.{is_waiting, waited_in};
ghost use Rattle.live_lab.specs.Clocks.{no_clock, waits, after_turn};

use lab_plan::JobNo;
use legal_steps::{Drinking, JobState};

/// How many turns are counted of a job, and in how many of them the session with this number was thirsty at the start and at the end.
#[derive(Clone, Copy, PartialEq, Eq, Debug)]
pub struct Clock {
    pub turns: u64,
    pub waited: u32,
    pub session: u32,
}

/// A clock before the job's first turn.
pub(crate) fn fresh() -> Clock
    ensures { result ≡ no_clock }
{
    Clock {
        turns: 0,
        waited: 0,
        session: 0,
    }
}

/// In how many turns the session with this number has waited.
pub(crate) fn waited_in(clock: Clock, session: u32) -> u32
    ensures { result ≡ waited_in (waits clock) session }
{
    if clock.session == session {
        clock.waited
    } else {
        0
    }
}

pub(crate) fn is_waiting(drinking: Drinking) -> bool
    ensures { result ≡ is_waiting drinking }
{
    drinking == Drinking::Thirsty
}

/// The clock after a turn that left the job in this phase, at whose start it was thirsty or not.
pub(crate) fn after_turn(clock: Clock, thirsty: bool, phase: JobState) -> Clock
    ensures { result ≡ after_turn thirsty phase clock }
{
    let so_far = waited_in(clock, phase.session);
    Clock {
        turns: clock.turns.saturating_add(1),
        waited: if thirsty && is_waiting(phase.drinking) {
            so_far.saturating_add(1)
        } else {
            so_far
        },
        session: phase.session,
    }
}

/// The clock of a job.
pub(crate) fn clock_of(clocks: &[Clock], job: JobNo) -> Clock
    requires { job < length clocks.now }
    ensures { result ≡ slice_index_or clocks.now job no_clock }
{
    clocks[job.0 as usize]
}
