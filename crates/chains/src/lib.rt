//! Chains of precedence in the initial state: jobs, each of which precedes the next. While both are hungry, the next one waits for the meal
//! of the one before it.
#![tactic(auto)]

mod chain;

pub use chain::{Chain, longest_chain};
