//! The lab of one handle: a world that owns its plan, for callers that name a job by its number. One call at a time.
//!
//! A job is driven by single turns, or all jobs together by settles: a settle does all that can be done without a word from an owner. A call
//! that names a job that isn't there changes nothing and answers `None`. But for what is handed out, memory is taken by the first call alone, and by one
//! that adds a session or makes room to keep events.
#![tactic(auto)]

mod additions;
mod admission;
mod ask;
mod clock;
mod commands;
mod end;
mod keepers;
mod kinds;
mod lab;
pub mod laws;
mod outside;
mod planned;
mod print;
mod readers;
mod rest;
mod retire;
mod settle;
mod skip;
mod stage;
mod steps;
mod turn;
mod words;

pub use additions::NotAdded;
pub use end::Release;
pub use interleaving::AddRefusal;
pub use keepers::Keepers;
pub use lab::Lab;
pub use planned::Planned;
pub use print::Printed;
pub use readers::{SessionFacts, Standing};
pub use settle::Came;
pub use stage::Stage;
