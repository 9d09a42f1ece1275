//! The log of one instrument, whose type keeps it made of parts: the entries of one job's session one after
//! another, only the last part perhaps unfinished, and each value following from the one before.
#![tactic(auto)]

pub mod dial;
pub mod entry;
pub mod log;
pub mod packed;
pub mod refusal;

pub use dial::turned;
pub use entry::Entry;
pub use log::InstrumentLog;
pub use packed::{pack_entry, unpack_entry};
pub use refusal::LogRefusal;
