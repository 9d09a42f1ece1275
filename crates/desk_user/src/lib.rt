//! The bench in a program of your own: it opens with its desks, and each job's owner takes turns until something holds, or
//! serves the neighbours, on a thread of its own.
//!
//! Every call asks that the desk is of the bench, and leaves it so; `open` is where that begins.
#![tactic(auto)]

mod bench;
mod owners;
mod pause;
mod service;
mod turn;
mod until;

pub use bell::Bell;
pub use bench::open;
pub use owners::{Owner, on_threads};
pub use pause::{How, Pause};
pub use service::{meal, serve, serve_and_wait};
pub use session_layer::visit_all;
pub use turn::{take_turn, turns_until, turns_until_all_retired};
pub use until::{Until, is_at};
