//! Who keeps whom waiting, in words: a line for each job, neighbour and instrument, and a line for each instrument.
#![tactic(auto)]

mod block;
mod largest;
mod ranks;
mod sums;
mod text;

pub use block::Block;
pub use largest::largest_three;
pub use text::add_blocks;
