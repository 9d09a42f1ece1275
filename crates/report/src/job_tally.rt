//! What a report tells of a job.

/// What a report tells of a job: its sessions and how many of them it did and gave up, its meals, and
/// whether it is retired.
#[derive(Clone, Copy, PartialEq, Eq, Debug)]
pub struct JobTally {
    pub sessions: u32,
    pub done: u32,
    pub withdrawn: u32,
    pub meals: u32,
    pub is_retired: bool,
}
