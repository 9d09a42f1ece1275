//! What the calls for C hand over: a text, which is kept until all of it is there and then put into the caller's room; and what is told beside it.
#![tactic(auto)]

mod memory_sink;
mod told;

pub use memory_sink::MemorySink;
pub use told::{Told, deliver, fail, put};
