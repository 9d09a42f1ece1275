//! Who keeps whom waiting in the run of a plan by rounds: for each job, neighbour and instrument, in how many rounds the job
//! waited for it, and in how many of these the neighbour held it. For each session of a job, the three that kept it longest.
//!
//! A bench is driven one round at a time, and after each every desk is asked what its job knows. No event is kept, so memory
//! grows with the bottles of the plan, and for sessions with their number, however many rounds there are. What is counted of a
//! session is emptied when the next one of its job begins.
#![tactic(auto)]

mod blocks;
mod counted;
mod holdings;
mod keepers;
mod kept;
mod knowledge;
mod laws;
mod places;
mod run;
mod sides;
mod tally;

pub use blocks::blocks_by_rounds;
pub use keepers::keepers_by_rounds;
pub use kept::KeptRun;
pub use laws::sessions_add_up;
pub use run::BlockedRun;
