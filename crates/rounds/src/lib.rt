//! Rounds: one thread drives all desks, one turn each a round.
//!
//! Nobody else acts meanwhile. So no exchange is lost, each look sees the edge as it is, and the history follows from the
//! plan: two runs of one plan, with one limit, are the same. `laws` says so, and that rounds don't end before all jobs are retired because
//! nothing is left to do: in a quiet round (`quiet`) each job's last turn was idle, the two ends of every edge saw the same word last, and
//! all jobs are retired.
#![tactic(auto)]

mod agreement;
mod drive;
mod ended;
pub mod laws;
mod one_round;
pub mod quiet;
mod retired;

pub use drive::rounds;
pub use ended::Ended;
pub use retired::{all_retired, are_at_rest};
