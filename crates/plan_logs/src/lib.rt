//! The logs of a plan: one for each instrument, empty, with room for all of its commands; and the entry that a command adds to one.
#![tactic(auto)]

pub mod commands;
pub mod rooms;

pub use commands::{drafted, entered, next_command, next_entry, push};
pub use rooms::empty_logs;
