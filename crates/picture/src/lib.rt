//! A picture of a report: its text is a function of the report and of the columns of its sessions. And a table of the report's logs,
//! for spreadsheets and data frames: its text is a function of the report.
#![tactic(auto)]

mod boxes;
mod columns;
mod line;
pub mod lines;
mod log_entries;
pub mod log_table;
mod looks;
mod tables;
mod ticks;

pub use lines::write_picture;
pub use log_table::table_of;
