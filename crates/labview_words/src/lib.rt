//! The words of the command line of `labview`: what they ask for.
#![tactic(auto)]

mod words;

pub use words::{PROGRAM, Task, View, read_words};
