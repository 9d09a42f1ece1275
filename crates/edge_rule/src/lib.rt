//! A shared bench: one table of atomic words under one rule, with one history. Each step that a desk takes is atomic, and adds
//! exactly its events to that history.
//!
//! The protocol is Chandy and Misra's of 1984, of philosophers who dine and drink. What differs: no message is sent. Fork, bottles
//! and their request tokens are bits of one word an edge, which both its jobs see, and a job moves what it may in one exchange.
#![tactic(auto)]

mod bench;
mod calls;
mod calm;
mod clock;
mod close;
mod closed;
mod commands;
mod company;
mod desk;
mod glances;
mod job_knowledge;
mod lent;
mod moves;
mod needed;
mod news;
mod open;
mod open_at;
mod readers;
mod refusals;
mod roster;
mod steps;
mod words;

pub use bench::Bench;
pub use calls::{Looked, Stepped};
pub use clock::Clock;
pub use closed::Closed;
pub use commands::command;
pub use company::meet_all;
pub use desk::Desk;
pub use glances::{glance, meet};
pub use job_knowledge::JobKnowledge;
pub use legal_steps::Counts;
pub use moves::{ask_bottles, ask_fork, give_bottles, give_fork, soil};
pub use news::{News, heed, tell};
pub use one_history::PhaseEvent;
pub use refusals::{CloseCause, CloseRefused, OpenError};
pub use steps::{exchange, exchange_seen, look, look_at, store_phase};
