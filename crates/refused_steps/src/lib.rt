//! Why a step is refused: the part of its guard that fails. Each part of the guard of each of the 17 kinds
//! of event has a cause of its own.
#![tactic(auto)]

mod bottle_moves;
mod cause;
mod forks;
mod marks;
mod meals;
mod questions;
mod sessions;
mod why;

pub use cause::Cause;
pub use why::why_not;
