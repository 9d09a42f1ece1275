//! A step that is written in a list of steps is read back as that step. These are laws alone: each is the contract of a function that
//! does nothing.
#![tactic(auto)]

pub mod laws;
