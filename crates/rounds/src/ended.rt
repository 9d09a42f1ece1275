//! Why turns ended.

/// Why turns ended, of rounds or of threads.
#[derive(Clone, Copy, PartialEq, Eq, Debug)]
pub enum Ended {
    /// All jobs are retired.
    AllRetired,
    /// In the last round every turn was idle, and the two ends of every edge saw one word.
    Quiet,
    /// Neither, but all rounds or turns that were asked for are done.
    Limit,
    /// Nothing was done, because no memory was left. Rounds take none.
    NoMemory,
}
