//! The core: a world, a state of a plan's bench that steps by one legal event at a time.
#![tactic(auto)]

mod acts;
mod add_refusal;
mod bottle_moves;
mod counts;
mod kept_plan;
mod looks;
mod meals;
mod needs;
mod opening_tables;
mod precedence;
mod refusal;
mod rooms;
mod seat;
mod sessions;
mod step;
mod steps;
mod tables;
mod tape;
mod world;

pub use add_refusal::AddRefusal;
pub use cycles::{NoMemory, cycle_in};
pub use legal_steps::{
    Counts, Dining, Drinking, EdgeState, End, EndChoice, Event, JobState, NotLegal, Step, StepLine,
};
pub use refusal::StartRefusal;
pub use world::World;
