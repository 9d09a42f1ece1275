//! Scripts and step lists. A script's meaning is a relation between the lines of a text and a plan,
//! and its fault is the first line that meets a cause, with the first cause that it meets; the reader
//! goes over the lines once, with a state that says all that the lines before say.
#![tactic(auto)]

mod bottles;
pub mod fault;
mod field;
mod form;
pub mod laws;
pub mod more;
mod number;
pub mod plan;
mod reader;
mod step;
pub mod steps;
pub mod upgrade_law;

pub use fault::{ScriptCause, ScriptFault};
pub use more::{FurtherSession, read_sessions};
pub use plan::{MOST_BYTES, read_plan};
pub use steps::read_steps;
