//! Orders of a script's jobs that are measured: each by the run of the script in that order, by at most so many rounds. The best that
//! was found goes out.
#![tactic(auto)]

mod best;
mod climb;
pub mod gain;
pub mod laws;
pub mod measure;
mod moves;
mod trial;

pub use best::{BestOrder, best_order};
pub use gain::Gain;
pub use measure::{Measure, is_better, measured};
