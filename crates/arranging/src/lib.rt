//! An order of a plan's jobs in which chains of precedence are short at the start: jobs that share an instrument get
//! different colours, and jobs stand in the order of their colours.
#![tactic(auto)]

mod colour_count;
pub mod colours;
mod greedy;
pub mod laws;
pub mod order;
pub mod reordered;
mod same_jobs;

pub use colours::{Colouring, colours_of};
pub use order::order_of;
pub use reordered::is_arrangement;
pub use same_jobs::has_jobs_of;
