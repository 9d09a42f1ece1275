//! What views are made of, and no run of `labview` shows.

mod ends;
mod faults;
mod measured;
mod memory;
mod orders;
mod stages;
mod words;
mod writers;
