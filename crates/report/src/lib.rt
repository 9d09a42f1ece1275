//! The report of a run, and the upgraded script of a plan: what is printed is a function of what is shown.
#![tactic(auto)]

mod as_read;
mod header;
mod job_tally;
pub mod laws;
pub mod line;
mod lines;
mod outlet;
mod script;
mod shown;
mod sink;
mod tally;
mod world;

pub use as_read::Showing;
pub use job_tally::JobTally;
pub use line::Line;
pub use outlet::{WriteFault, offer};
pub use script::write_script;
pub use shown::{all_retired, write_report};
pub use sink::{Failed, Sink, ToWrite};
pub use tally::Tally;
pub use world::write_world;
