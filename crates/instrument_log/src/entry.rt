//! An entry of a log.
ghost use Rattle.std.specs.Prelude.{◌≡◌, IsTrue, ◌↔◌};

use lab_plan::{JobNo, LARGEST_NUMBER, MOST_COMMANDS, MOST_JOBS, MOST_SESSIONS, Verb};

/// What one command left in the log of its instrument.
///
/// Within the limits of a plan (`lab_plan::limits`) the session and the place are counted from 1, and the place is
/// at most the length.
#[derive(Clone, Copy, PartialEq, Eq, Debug)]
pub struct Entry {
    pub job: JobNo,
    /// The session of the job, counted from 1.
    pub session: u32,
    /// Which of the session's commands on this instrument it is, counted from 1.
    pub place: u32,
    /// How many commands the session has on this instrument.
    pub length: u32,
    pub verb: Verb,
    /// The dial after the command.
    pub value: u32,
}

impl Entry {
    ghost use Rattle.instrument_log.specs.Entries.{IsWithinLimits};

    /// Whether the entry is within the limits of a plan.
    pub fn is_within_limits(&self) -> bool
        ensures { IsTrue result ↔ IsWithinLimits self.now }
    {
        (byte_of_job(self.job) as usize) < MOST_JOBS
            && 1 <= self.session
            && self.session <= MOST_SESSIONS
            && self.length <= MOST_COMMANDS
            && 1 <= self.place
            && self.place <= self.length
            && self.verb.fits()
            && self.value <= LARGEST_NUMBER
    }
}

pub(crate) fn byte_of_job(job: JobNo) -> u8
    ensures { result ≡ job }
{
    job.0
}
