//! The run of a plan by rounds, event by event, in a world of one thread: what `rounds` does at a bench, as a list of events.
//!
//! In a world nobody else acts meanwhile. So each move is tried on what is there, and what is legal there is what is due.
#![tactic(auto)]

mod acts;
mod attempt;
mod bottles;
mod edges;
mod going_on;
mod in_hand;
pub mod laws;
mod player;
mod round;
mod steps;
mod whole_trace;

pub use acts::first_act;
pub use going_on::{NotTraced, trace_on};
pub use in_hand::acts_in_hand;
pub use steps::step_of;
pub use whole_trace::trace;
