//! Why no picture or table of a report is written.
ghost use Rattle.std.specs.Prelude.{◌≡◌};
ghost use Rattle.lab_views.specs.Pictures.{status_of_picture, for_report, for_timeline, for_reading};

use lab_program::ReadFault;
use report_reader::{ReportCause, ReportFault};
use thiserror::Error;
use timeline::TimelineFault;

/// Why no picture or table of a report is written. On standard error its text stands behind `labview: `.
#[derive(Clone, Copy, PartialEq, Eq, Debug, Error)]
pub enum PictureFault {
    /// The input is no report.
    #[error("{0}")]
    Report(ReportFault),
    /// The report has no timeline.
    #[error("{0}")]
    Timeline(TimelineFault),
    /// A read of the input failed.
    #[error("read fault")]
    Read,
    /// The input goes on past its limit.
    #[error("input longer than 16777216 bytes")]
    TooLong,
    /// A write or the last flush failed.
    #[error("write fault")]
    Write,
    /// An allocation failed.
    #[error("no memory")]
    NoMemory,
}

/// The status that the program ends with.
pub fn status_of_picture(answer: &Result<(), PictureFault>) -> u8
    ensures { result ≡ status_of_picture answer.now }
{
    match answer {
        Ok(()) => 0,
        Err(PictureFault::Report(_)) => 1,
        Err(PictureFault::Timeline(_)) => 1,
        Err(PictureFault::Read) => 4,
        Err(PictureFault::TooLong) => 4,
        Err(PictureFault::Write) => 4,
        Err(PictureFault::NoMemory) => 5,
    }
}

/// The fault if the input is no report, or there was no memory to read it.
pub(crate) fn for_report(fault: ReportFault) -> PictureFault
    ensures { result ≡ for_report fault.cause fault }
{
    match fault.cause {
        ReportCause::NoMemory => PictureFault::NoMemory,
        _ => PictureFault::Report(fault),
    }
}

/// The fault if the report has no timeline, or there was no memory for it.
pub(crate) fn for_timeline(fault: TimelineFault) -> PictureFault
    ensures { result ≡ for_timeline fault }
{
    match fault {
        TimelineFault::NoMemory => PictureFault::NoMemory,
        _ => PictureFault::Timeline(fault),
    }
}

/// The fault if the input was not read.
pub(crate) fn for_reading(fault: ReadFault) -> PictureFault
    ensures { result ≡ for_reading fault }
{
    match fault {
        ReadFault::Read => PictureFault::Read,
        ReadFault::TooLong => PictureFault::TooLong,
        ReadFault::NoMemory => PictureFault::NoMemory,
    }
}
