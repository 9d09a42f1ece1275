//! The text of a journal: a list of steps that grows by whole texts, each between a line `#steps` and a line with its sum. `labrun replay`
//! passes over both, since they are comments.
#![tactic(auto)]

mod added;
mod digits;
pub mod laws;
mod lines;
mod more;
mod sums;
mod text;

pub use added::{Addition, additions};
pub use lines::whole_lines;
pub use more::more_text;
pub use sums::wrong_sum;
pub use text::journal_text;
