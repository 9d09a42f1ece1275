//! The state of a bench, its 17 kinds of atomic step, where each is legal and what it changes;
//! and the laws: what holds after every list of legal steps.
#![tactic(auto)]

pub mod bottles;
pub mod counts;
pub mod edge_state;
pub mod end;
pub mod event;
pub mod laws;
pub mod log_laws;
mod past;
pub mod phase;

pub use bottles::{bottle_end, has};
pub use counts::{Counts, NO_COUNTS};
pub use edge_state::{EdgeState, EndChoice};
pub use end::{End, neighbour};
pub use event::{Event, NotLegal, Step, StepLine};
pub use past::Past;
pub use phase::{Dining, Drinking, JobState};
