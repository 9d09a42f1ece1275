//! What a job has done so far.

/// How many meals a job had, how many sessions it ended, and how many it gave up.
#[derive(Clone, Copy, PartialEq, Eq, Debug)]
pub struct Counts {
    pub meals: u32,
    pub sessions_done: u32,
    pub withdrawn: u32,
}

/// The counts of a job before its first event.
pub const NO_COUNTS: Counts = Counts {
    meals: 0,
    sessions_done: 0,
    withdrawn: 0,
};
