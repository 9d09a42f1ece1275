//! A lab that keeps a journal: what it did is taken as text, and a lab comes back from all texts taken.
//!
//! A journal is the script, a line `steps`, and the texts, one after another. It is also an input of `labrun replay`, which
//! knows the script's sessions alone.
#![tactic(auto)]

mod in_hand;
pub mod laws;
mod more_room;
mod open;
mod read;
mod resuming;
mod room;
mod written;

pub use in_hand::finish;
pub use more_room::{NoRoom, make_room};
pub use open::{has_room, open_kept};
pub use read::read_journal;
pub use resuming::{replay_text, resume};
pub use written::{NotTaken, journal, take_journal};
