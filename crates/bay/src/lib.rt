//! The bay: a line, a book of asks and a log of what is kept, tied together. A pure machine: no clock, no file and no thread is in it. A moment is a number
//! that is handed in, and so is how far the log outlives a crash.
//!
//! Each call changes one thing, and then all follows from that: those are let in who may be, those end whose time is over, until nothing is due.
#![tactic(auto)]

mod asking;
mod bay;
mod classes;
mod ending;
mod following;
mod free;
mod keeper;
pub mod laws;
mod letting_in;
pub mod log_laws;
mod moments;
mod place;
mod request;
mod restoring;
mod room;
mod stopping;
mod telling;
mod terms;
mod turning;
mod writing;

pub use bay::{Bay, NotNoted, NotOpened};
pub use classes::Class;
pub use request::{NotAsked, NotHeld, Request, Urgency};
pub use restoring::NotBack;
pub use telling::Told;
pub use terms::Terms;
pub use turning::NotTurned;
