//! The run of a plan by rounds, as the rounds in which each session began, drank and ended, and each meal was wanted, had and ended.
//!
//! A bench is driven one round at a time (`watch`), and after each every desk is asked how far its job is. A turn has one phase act at
//! most, so what it was is seen by the phase before and the phase after. No event is kept, so memory grows with the sessions
//! of the plan, however many rounds there are.
#![tactic(auto)]

mod by_rounds;
mod held;
mod job_log;
mod longest;
mod run;
mod session;
mod text;
mod waits;
mod watcher;

pub use by_rounds::{fresh_logs, run_by_rounds};
pub use held::held_by;
pub use job_log::JobLog;
pub use run::RoundsRun;
pub use session::{Meal, Session};
pub use text::{add_outcome, add_rounds, add_waits};
pub use waits::total_wait;
pub use watcher::{Watcher, watch};
