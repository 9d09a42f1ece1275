//! Faults of reports.
use thiserror::Error;

/// Why a line, or the end of the text, is refused. Its text is what a user reads.
#[derive(Clone, Copy, PartialEq, Eq, Debug, Error)]
pub enum ReportCause {
    /// The line has no form of a report's lines.
    #[error("not a line of a report")]
    UnknownLine,
    /// The line doesn't stand where it may: the header first, then instruments with their entries, jobs, and the last line.
    #[error("line out of place")]
    OutOfPlace,
    /// A job line with `withdrawn` in a report of version 1, or one without it in version 2.
    #[error("job line of another version")]
    OtherVersion,
    /// `finished` while a job waits, or `unfinished` while none does.
    #[error("last line doesn't fit the jobs")]
    WrongEnd,
    /// The text ends before its last line, or within a line.
    #[error("report not whole")]
    NotWhole,
    /// An allocation failed.
    #[error("no memory")]
    NoMemory,
}

/// The fault of a text: the number of a line, counted from 1, and why it is refused.
#[derive(Clone, Copy, PartialEq, Eq, Debug, Error)]
#[error("line {line}: {cause}")]
pub struct ReportFault {
    pub line: usize,
    pub cause: ReportCause,
}
