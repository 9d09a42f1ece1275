//! What C calls of a bay: its handle, which a call makes busy, empties and fills again; what each call does to the bay that it has, what it tells, as
//! structs that C has too, and its status.
#![tactic(auto)]

mod handle;
mod inside;
mod opening;
mod owners;
mod reading;
mod slot;
mod statuses;
mod told;
mod turning;
mod writing;

pub use handle::{BUSY, Handle, IN_USE, NOT_OPEN};
pub use inside::Inside;
pub use slot::Slot;
pub use told::{BayAsked, BayClass, BayOutcome, BayStanding, BayTerms};
