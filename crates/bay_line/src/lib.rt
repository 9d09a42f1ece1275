//! The line before a bay: who asked, for which instruments, in which order, and who is let in next. Pure bookkeeping, without a clock or a file.
//!
//! Whoever is let in finds all its instruments free, and a place; nobody who waits has one. Whoever stands in line may be passed by, by those behind it
//! whose instruments are free, but only so often; from then on its instruments are kept for it from those behind it.
#![tactic(auto)]

mod appending;
mod first;
mod going_in;
mod held_back;
mod keeper;
mod late;
pub mod laws;
mod line;
mod passing;
mod wanting;
mod wish;

pub use going_in::Seated;
pub use line::{Line, NotInLine};
pub use wish::Wish;
