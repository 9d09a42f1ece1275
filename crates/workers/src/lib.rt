//! Threads drive the desks of one bench: each worker has desks of its own, and takes one turn of each in a round.
//!
//! What is promised doesn't depend on threads. If one can't be made, its worker's rounds run on the calling thread after that one's own;
//! workers then stop early, and the calling thread takes the turns that are left. Workers with nothing to do sleep, and are woken; or, if
//! no gate holds anybody up, they stop, as they would only lose time.
#![tactic(auto)]

mod drive;
mod gate;
mod halt;
mod last_rounds;
mod laws;
mod muster;
mod round;
mod team;
mod teams;
mod worth;

pub use drive::threads;
pub use gate::{Gate, NoGate, Passage, Through};
pub use halt::Halt;
pub use last_rounds::finish;
pub use laws::turns_in_history;
pub use muster::Muster;
pub use rounds::{Ended, rounds};
pub use team::work;
