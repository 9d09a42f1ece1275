//! What a job that waits can count on: between its request for a fork and its next meal the neighbour begins at
//! most one meal, and while a job is left that isn't retired, some event leads on.
#![tactic(auto)]

pub mod laws;
mod marks;
mod meals;
mod ranks;
mod way;

pub use cycles::NoMemory;
pub use meals::meals_after_ask;
pub use ranks::ranking;
pub use way::way_on;
