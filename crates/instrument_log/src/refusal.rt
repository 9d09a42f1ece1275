//! Why a log refuses an entry.

/// Why a log refuses an entry. Of several reasons the first in this order is given.
#[derive(Clone, Copy, PartialEq, Eq, Debug)]
pub enum LogRefusal {
    /// A part is unfinished, and the entry isn't its next place: same job, session and length.
    NotNextPlace,
    /// No part is unfinished, and the entry's place isn't 1.
    NotFirstPlace,
    /// The log has as many entries as it has room for.
    NoRoom,
}
