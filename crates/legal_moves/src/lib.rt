//! What could be done next: exactly the moves of each job that are legal in a world.
#![tactic(auto)]

mod candidates;
pub mod laws;
mod legal;

pub use legal::legal_moves;
