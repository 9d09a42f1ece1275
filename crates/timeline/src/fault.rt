//! Faults of timelines.
use thiserror::Error;

/// Why an entry has no place on a timeline. Its text is what a user reads.
#[derive(Clone, Copy, PartialEq, Eq, Debug, Error)]
pub enum EntryCause {
    /// No job line has the name.
    #[error("its job has no job line")]
    NoJobLine,
    /// A session's number, or a length, past what a lab may have.
    #[error("more sessions or commands than a lab has")]
    LimitPassed,
    /// Session 0, or a place that isn't from 1 to the length.
    #[error("no such session or place")]
    NoSuchPlace,
    /// The entry before it is of its session, and has another length or no lower place.
    #[error("it doesn't follow the entry before it")]
    OutOfOrder,
    /// The log has its session before it, and another session between.
    #[error("its session stands in two places of the log")]
    SessionTwice,
}

/// Why a report has no timeline. Instruments, entries of a log and job lines are counted from 1.
#[derive(Clone, Copy, PartialEq, Eq, Debug, Error)]
pub enum TimelineFault {
    /// More jobs or more instruments than a lab may have.
    #[error("more jobs or instruments than a lab has")]
    LimitPassed,
    /// Its name stands in a job line before it.
    #[error("job line {job}: a job of this name stands before it")]
    JobTwice {
        job: usize,
    },
    /// An entry has no place.
    #[error("instrument {instrument}, entry {entry}: {cause}")]
    Entry {
        instrument: usize,
        entry: usize,
        cause: EntryCause,
    },
    /// No order of the sessions agrees with every log.
    #[error("the logs contradict each other: no order of the sessions agrees with all of them")]
    Contradiction,
    /// An allocation failed.
    #[error("no memory")]
    NoMemory,
}
