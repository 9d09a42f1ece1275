//! The terms of a bay.

/// How long what is kept for whom.
#[derive(Clone, Copy)]
pub struct Terms {
    /// How long a hold is kept whose client is gone; for ever, if there is none.
    pub grace: Option<u64>,
    /// How long a hold waits for the disk; for ever, if there is none.
    pub disk: Option<u64>,
    /// Whether the bay keeps a log of who holds.
    pub keeps: bool,
}
