//! A script with its jobs in an order in which chains of precedence are short at the start. It is made of the script's own lines, and
//! judged by the plan that it is read as.
#![tactic(auto)]

mod blocks;
pub mod judged;
pub mod laws;

pub use blocks::{moved, with_line_end};
pub use judged::{arranged_script, read_back};
