//! What `labview` writes of a journal: the script that its lab has become, and the steps that were done, as `labrun` reads them.
#![tactic(auto)]

mod done;
pub mod laws;
mod sinks;
mod views;

pub use views::{run_script, run_steps};
