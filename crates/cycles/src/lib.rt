//! Cycles of a relation among jobs, given as pairs. A job that leads on to none that is left is on
//! no cycle: take such jobs out until there is none, and every walk among those left meets itself.
#![tactic(auto)]

mod cycle;
mod no_memory;
mod ranks;
mod sinks;
mod walk;

pub use cycle::cycle_in;
pub use no_memory::NoMemory;
pub use ranks::ranking;
