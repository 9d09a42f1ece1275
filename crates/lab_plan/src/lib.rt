//! Plans of a laboratory: names, jobs with their sessions of commands, and what follows from them,
//! the edges of the conflict graph and their bottles.
#![tactic(auto)]

mod bottles;
pub mod builder;
mod draft;
mod edge_table;
mod instrument_set;
mod job;
pub mod limits;
mod longer;
pub mod name;
mod named_sets;
mod needed;
pub mod numbers;
pub mod place;
pub mod plan;
pub mod refusal;
mod session_table;
mod tables;
pub mod verb;

pub use builder::PlanBuilder;
pub use instrument_set::has_instrument;
pub use limits::{
    LARGEST_NUMBER, MOST_BOTTLES, MOST_COMMANDS, MOST_INSTRUMENTS, MOST_JOBS, MOST_SESSIONS,
};
pub use name::{is_digit, is_name, is_same_name};
pub use numbers::{EdgeNo, InstrumentNo, JobNo};
pub use place::Place;
pub use plan::Plan;
pub use refusal::{MoreRefusal, PlanRefusal};
pub use verb::Verb;
