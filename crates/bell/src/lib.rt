//! A bell, by which threads sleep while they have nothing to do, and are woken once another did something. It is a hint: no promise rests
//! on it, and every sleep ends by itself.
#![tactic(auto)]

mod bell;
mod listener;

pub use bell::Bell;
pub use listener::Listener;
