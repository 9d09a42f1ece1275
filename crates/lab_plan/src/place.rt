//! The place of a command.

/// The place of a command within its session's part on its instrument.
#[derive(Clone, Copy, PartialEq, Eq, Debug)]
pub struct Place {
    /// Its place among the session's commands on its instrument, counted from 1.
    pub place: u32,
    /// How many commands the session has on that instrument.
    pub length: u32,
}
