//! What `labrun` does, over any source and any sink: a script is read whole, and the output and the answer depend only on its
//! bytes, and by threads on the schedule too. A script is checked, upgraded, replayed from the initial state on, or run on a bench, by
//! rounds or by threads.
#![tactic(auto)]

mod counts;
mod replay;
mod run_report;
mod scripts;
mod shared;
mod steps;
mod tasks;
mod upgrade_text;
mod words;

pub use labrun_words::{PROGRAM, Task, read_words};
pub use replay::run_replay;
pub use scripts::{run_check, run_upgrade};
pub use shared::{run_rounds, run_threads};
pub use tasks::run_task;
pub use whole_runs::{Gate, NoGate};
pub use words::run_words;
