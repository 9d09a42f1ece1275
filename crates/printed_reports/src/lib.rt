//! A report that was printed is read back as the report that was printed. These are laws alone: each is the contract of a function that
//! does nothing.
#![tactic(auto)]

pub mod laws;
