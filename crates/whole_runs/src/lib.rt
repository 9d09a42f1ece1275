//! A whole run of a plan: a bench is opened, all its desks take turns, and it is closed.
//!
//! What a run leaves is the end of one history that is legal from the initial state, in which the events of each job are turns
//! one after another.
#![tactic(auto)]

mod runs;
mod shown;

pub use runs::{by_rounds, by_threads};
pub use shown::{AtEnd, write_report};
pub use workers::{Gate, NoGate};
