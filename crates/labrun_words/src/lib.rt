//! The words of the command line of `labrun`: which task they ask for.
#![tactic(auto)]

mod words;

pub use words::{PROGRAM, Task, read_words};
