//! An ask.

/// How an ask is over.
#[derive(Clone, Copy, PartialEq, Eq, Debug)]
pub enum End {
    /// It held, and its owner let go.
    LetGo,
    /// Its owner left, and wants to hear nothing more.
    Left,
    /// Its deadline was over while it waited.
    Lapsed,
    /// It held, but the journal wasn't on the disk in time.
    NotWritten,
    /// It held for as long as it may while somebody waits for what it has.
    Limit,
    /// It held, and its client was gone for too long.
    Grace,
    /// It held, and somebody took that away.
    TakenAway,
    /// It held, and another ask has that now.
    Replaced,
    /// The bay stopped.
    Stopped,
}

/// How far an ask is.
#[derive(Clone, Copy, PartialEq, Eq, Debug)]
pub enum Stage {
    /// It waits in line.
    Waits,
    /// It holds all that it needs.
    Holds,
    /// It is over.
    Over(End),
}

/// A line of the journal.
#[derive(Clone, Copy, PartialEq, Eq, Debug)]
pub enum Mark {
    /// None is owed.
    None,
    /// It is owed.
    Due,
    /// It was given, and the journal was so many bytes long then.
    At(u64),
}

/// The last thing that an ask was told.
#[derive(Clone, Copy, PartialEq, Eq, Debug)]
pub enum Heard {
    /// Nothing yet.
    Nothing,
    /// That it holds.
    Holds,
    /// That it is over.
    End,
}

/// What an ask is told.
#[derive(Clone, Copy, PartialEq, Eq, Debug)]
pub enum Outcome {
    /// It holds all that it needs.
    Holds,
    /// It is over.
    Over(End),
}

/// Somebody who wants instruments, and a place of a class.
#[derive(Clone, Copy)]
pub struct Ask {
    /// No other ask has it.
    pub number: u64,
    /// The class of its place: bit k of a set for class k.
    pub class: u32,
    /// Who asked: a hash of the ticket that only the owner knows.
    pub owner: u128,
    /// Until when it waits.
    pub deadline: Option<u64>,
    /// How long it may hold while somebody waits for what it has.
    pub limit: Option<u64>,
    /// The instruments that it holds: bit i for instrument i. None, unless it holds.
    pub needs: u64,
    /// Larger than that of each ask that was let in before it. 0, if it wasn't let in.
    pub token: u64,
    /// Since when it asks.
    pub asked: u64,
    /// Since when it is so far: since when it asks, then since when it holds, and then since when it is over.
    pub since: u64,
    /// Since when its client isn't there.
    pub gone: Option<u64>,
    pub stage: Stage,
    pub heard: Heard,
    /// The line that says that it holds.
    pub hold_line: Mark,
    /// The line that says that it is over.
    pub end_line: Mark,
}
