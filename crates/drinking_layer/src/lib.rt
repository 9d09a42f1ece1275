//! Bottles and drinking: which bottles a job may give and ask for on an edge by the word last seen there, always all of them at
//! once, and calls that do so, or drink, if it is legal; and where an exchange of given moves is legal. What a job's own phase acts
//! need of the layer below is passed on.
#![tactic(auto)]

mod bottles;
mod drinks;
mod exchanges;
mod needs;
mod service;

pub use bottles::{due_moves, due_moves_seen, with_bottles, with_sets};
pub use dining_layer::{may_hunger, may_leave, may_sit};
pub use drinks::{drink, may_drink};
pub use exchanges::{is_own_edge, may_ask_bottles, may_exchange, may_give_bottles};
pub use service::{serve_bottles, want_bottles};
