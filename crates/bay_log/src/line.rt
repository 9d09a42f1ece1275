//! The lines of a journal.

use crate::how::How;
use crate::text::Text;

/// What an ask holds, since when, and since when it asked.
#[derive(Clone, Copy, PartialEq, Eq, Debug)]
pub struct Entry {
    /// The class whose place it has.
    pub class: u32,
    /// The set of its instruments, bit by bit.
    pub needs: u64,
    /// A hash of the ticket that only the owner knows.
    pub owner: u128,
    /// Since when it holds.
    pub since: u64,
    /// How long it may hold while somebody waits for it.
    pub limit: Option<u64>,
    /// Since when it asked.
    pub asked: u64,
    /// Its token: larger than that of each ask that was told before that it holds.
    pub token: u64,
}

/// One line of a journal.
#[derive(Drop)]
pub enum Line {
    /// The first line of a file: the hash of the bay that it belongs to, how many bytes the files before it had, a number below which every
    /// number was given, and a number that no token was larger than.
    Head {
        bay: [u8; 32],
        base: u64,
        next: u64,
        granted: u64,
    },
    /// An ask holds.
    Hold {
        ask: u64,
        entry: Entry,
    },
    /// What one ask holds is another's from here on.
    Back {
        from: u64,
        to: u64,
    },
    /// An ask is over, since this moment.
    End {
        ask: u64,
        how: How,
        at: u64,
    },
    /// A note of whoever asked.
    Note {
        ask: u64,
        text: Text,
    },
}
