//! Why a bench isn't opened, or isn't closed.
use crate::bench::Bench;
use crate::desk::Desk;
use std::alloc::{Allocator, Global};

/// Why a bench isn't opened.
#[derive(Clone, Copy, PartialEq, Eq, Debug)]
pub enum OpenError {
    /// An allocation failed.
    NoMemory,
}

/// Why a bench isn't closed. Of both reasons the first is given.
#[derive(Clone, Copy, PartialEq, Eq, Debug)]
pub enum CloseCause {
    /// Not every desk of the bench is there exactly once.
    NotEveryDesk,
    /// An allocation failed.
    NoMemory,
}

/// A bench that wasn't closed: it comes back with all desks, as they were.
#[derive(Drop)]
pub struct CloseRefused<'p, A: Allocator = Global> {
    pub cause: CloseCause,
    pub bench: Bench<'p, A>,
    pub desks: Vec<Desk<A>, A>,
}
