//! What is asked, and why it is refused.

/// Whether somebody who asks may be passed by, once it waits.
#[derive(Clone, Copy, PartialEq, Eq, Debug)]
pub enum Urgency {
    /// As often as may be.
    Usual,
    /// Never: nobody that asks later goes before it, nor before anybody that stands in line with it.
    Urgent,
}

/// Somebody who asks.
#[derive(Clone, Copy)]
pub struct Request {
    /// Larger than each number before it.
    pub number: u64,
    /// The class of the place that it wants.
    pub class: u32,
    /// Who asks: a hash of the ticket that only the owner knows; 0 for nobody. An owner has one ask at a time.
    pub owner: u128,
    /// Until when it waits.
    pub deadline: Option<u64>,
    /// How long it may hold while somebody waits for what it has.
    pub limit: Option<u64>,
    /// Whether those who ask later may go before it and before those who stand in line with it.
    pub urgency: Urgency,
}

/// Why nobody asks. Nothing changed then. Of several reasons the first counts, in this order.
#[derive(Clone, Copy, PartialEq, Eq, Debug)]
pub enum NotAsked {
    /// The bay has stopped.
    Stopped,
    /// The number isn't larger than all before it; or it is the last of all.
    Number,
    /// There is no such class.
    NoClass,
    /// It asks for no instrument, or for no set.
    Empty,
    /// It asks for an instrument that its class may not use.
    MayNotUse,
    /// The owner has an ask that isn't over.
    OwnerTaken,
    /// The line has no room for so many sets.
    LineFull,
    /// There is no memory.
    NoMemory,
}

/// Why an ask doesn't do that. Nothing changed then.
#[derive(Clone, Copy, PartialEq, Eq, Debug)]
pub enum NotHeld {
    /// It is over; or nobody ever asked so.
    Over,
    /// It waits.
    Waits,
}
