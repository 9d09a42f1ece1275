//! Who waits outside, and who is let in: late thirst. Pure bookkeeping, without a world.
//!
//! A job that asks for its session may be left outside until its instruments are free, or until it has been passed by often enough. No call
//! but the first takes memory.
#![tactic(auto)]

mod asker;
mod entries;
mod first_due;
pub mod laws;
mod line;
mod sets;

pub use asker::{Asker, Reason};
pub use line::Line;
pub use sets::{has, next_of};
