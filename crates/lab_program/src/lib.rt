//! What the programs `labrun` and `labview` have in common: how a whole input is read, how a text goes out, why a program
//! fails, and how it ends.
#![tactic(auto)]

mod exit;
mod faults;
mod input;
mod output;
mod source;

pub use exit::{end, tell};
pub use faults::{Outcome, RunFault, status_of};
pub use input::{ReadFault, read_input};
pub use output::{pass_on, send_text};
pub use source::{FromRead, Source};
