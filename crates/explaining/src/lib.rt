//! Explanations: why a step of a list isn't legal when its turn comes, how its job and the job's edges are there,
//! and which moves are legal. Each text is a function of a plan, a state and what it tells.
#![tactic(auto)]

mod causes;
mod explanation;
mod moves;
mod states;

pub use explanation::{Explanation, explain};
