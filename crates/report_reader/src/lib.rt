//! Reading a report: its text is the lines of one value, spelled one after another, or there is no such value. Some words are the line
//! that is spelled so, or no line is.
#![tactic(auto)]

mod fault;
mod form;
pub mod laws;
mod lines;
mod number;
mod parts;
pub mod read;
mod reader;
pub mod report;

pub use fault::{ReportCause, ReportFault};
pub use lines::{EntryLine, JobLine};
pub use read::read_report;
pub use report::{Log, Report};
