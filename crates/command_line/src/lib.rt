//! The command lines of both programs: the words that are given, as clap reads them, each with its numbers; and how a program
//! ends if its words ask for nothing that it does.
#![tactic(auto)]

mod command;
mod found;
mod words;

pub use command::{number, optional_number, program, with_word};
pub use found::{number_of, why_no_task};
pub use words::{NoTask, end_saying_why, end_without_task, given_words, refused};
