//! The limits of a plan. `specs/Limits.antt` has them in words, and `proofs/SameLimits.antt` says that these are they.

/// Jobs of a plan. The format of scripts sets it, as the other limits (`docs/FORMATS.md`, *Numbers and limits*).
pub const MOST_JOBS: usize = 32;

/// Instruments of a plan.
pub const MOST_INSTRUMENTS: usize = 56;

/// Sessions of a job.
pub const MOST_SESSIONS: u32 = 1000;

/// Commands of a plan, of all its jobs together.
pub const MOST_COMMANDS: u32 = 100_000;

/// Instruments that two jobs have in common, each a bottle of their edge: so an edge with all its bottles and
/// their request tokens is one word of 64 bits.
pub const MOST_BOTTLES: u8 = 28;

/// The number of a command, of a dial, and of a patience: it has at most 6 digits.
pub const LARGEST_NUMBER: u32 = 999_999;
