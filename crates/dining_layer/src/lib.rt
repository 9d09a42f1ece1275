//! Forks and meals: which fork moves are legal on an edge by the word last seen there, and calls that do one of them, or one phase
//! event of a meal, if it is legal.
#![tactic(auto)]

mod answers;
mod edges;
mod forks;
mod meals;
mod moves;

pub use answers::{Tried, answered};
pub use edges::{AtEdge, at_edge, at_edge_seen, seen_from};
pub use forks::{due_forks, fork_moves, may_ask, may_give, may_soil};
pub use meals::{may_hunger, may_leave, may_sit, table};
pub use moves::{ask, dine, give, soil};
