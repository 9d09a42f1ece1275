//! How a hold ends.

/// How a hold ended, or an ask that never held.
#[derive(Clone, Copy, PartialEq, Eq, Debug)]
pub enum How {
    /// Its owner let go.
    LetGo,
    /// Its owner left.
    Left,
    /// Its time was over before it held.
    Lapsed,
    /// It held in time, but the journal wasn't written.
    NotWritten,
    /// It held longer than its limit, and somebody waited.
    Limit,
    /// Its client was gone longer than it may be.
    Grace,
    /// It was taken away.
    TakenAway,
    /// Its owner asked again.
    Replaced,
    /// The bay stopped.
    Stopped,
}
