//! What is left to do of itself in a world, without a word from an owner, and doing it, until nothing is left anywhere.
//!
//! Whether a job has something to do depends on its own phase, its marks and its edges alone. So it is noted who may have something to
//! do, and after an event only those near it are marked anew. Nothing here takes memory, but for the notes at their start.
#![tactic(auto)]

mod due;
mod edge_visits;
mod guesses;
mod longer;
mod moves;
mod own_acts;
mod resting;

pub use due::{Due, wake_near, wake_self};
pub use edge_visits::{visit, visit_all};
pub use longer::{has_still_nothing_to_do, stays_marked};
pub use moves::due_moves;
pub use resting::rest;
