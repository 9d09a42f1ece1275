//! Texts `bench 1`: which instruments a job may use is written behind its line, and each such text stands for a script `lab 2`, line by line.
#![tactic(auto)]

mod fields;
mod form;
mod origins;
mod script;
mod texts;
mod user_jobs;

pub use origins::origin;
pub use script::{NotScript, at_origin, lab_script};
pub use texts::{is_for_bench, lab_text};
pub use user_jobs::users;
