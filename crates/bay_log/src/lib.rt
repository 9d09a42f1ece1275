//! The journal of a bay: its lines as they are written, and as they are read again.
//!
//! Each line begins with a sum over the line before it and its own words. So what is read is a beginning of what was written, cut at any byte, and a
//! line that was changed, left out or moved is refused. No file is touched here: whoever has the file hands in bytes, and says how far they are durable.
#![tactic(auto)]

mod alive;
mod body;
mod digits;
mod fields;
mod how;
pub mod laws;
mod line;
mod log;
mod past;
mod reading;
mod sum;
mod text;

pub use alive::{Holder, holders};
pub use how::How;
pub use line::{Entry, Line};
pub use log::Log;
pub use reading::{Fault, Found, read};
pub use text::{Text, is_text};
