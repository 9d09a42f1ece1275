//! The book of a bay: who asked, how far each ask is, what it is told, and which lines of the journal it owes. Pure bookkeeping, without a bench.
//!
//! A moment is a number that is handed in, and so is how far the journal outlives a crash. No calls but `add` and `restore` take memory.
#![tactic(auto)]

mod ask;
mod book;
mod counting;
mod finding;
pub mod laws;
mod making;
mod moments;
mod restoring;
mod row;
mod settling;
mod telling;

pub use ask::{Ask, End, Heard, Mark, Outcome, Stage};
pub use book::Book;
pub use restoring::NotRestored;
