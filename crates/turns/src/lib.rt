//! Definitions and laws alone: what an event reads and changes, and what a job knows: its own seat, and each of its edges as it saw it
//! last or changed it since (`locality`). What a job does in one turn, by its own events: which moves are due on an edge, which phase act is due, and turns one
//! after another. Each law is the contract of a function that does nothing.
#![tactic(auto)]

mod laws;
pub mod locality;

pub use laws::{
    calm_has_nothing_due, due_is_legal, idle_turn_is_calm, nothing_done_is_idle,
    nothing_due_is_calm, one_act_is_due, one_group_is_due, stays_calm,
};
