//! A step as it is written in a list of steps: its word, its jobs by their names, and its bottles by their instruments. The text is a
//! function of a plan and the step.
#![tactic(auto)]

mod names;
mod steps;

pub use names::{add_bottle, add_job, add_other};
pub use steps::add_step;
