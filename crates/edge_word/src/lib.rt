//! Packed words: an edge, or a phase of a job, in the 64 bits that one atomic step reads or writes. A word is what
//! it spells: contracts see an `EdgeWord` as the core's edge, a `PhaseWord` as its phase. The bits, highest first:
//!
//!              63   60 59                32 31                 4   3   2   1   0
//!             +-------+--------------------+--------------------+---+---+---+---+
//!   EdgeWord  | zero  | tokens of bottles  | bottles            | 0 | t | d | f |   f, t: ends of the fork and its token
//!             +-------+--------------------+--------------------+---+---+---+---+   d: the fork is dirty
//!
//!              63                        32 31            8 7    5 4       2 1     0
//!             +----------------------------+---------------+------+---------+-------+
//!  PhaseWord  | position                   | session       | zero | drinks  | dines |
//!             +----------------------------+---------------+------+---------+-------+
//!
//! A word needs the definitions of the legal steps, and no world: so this crate stands beside `interleaving`.
#![tactic(auto)]

pub mod edge;
pub mod laws;
pub mod moves;
pub mod phase;

pub use edge::{EdgeWord, is_bottle_set};
pub use moves::EdgeMoves;
pub use phase::PhaseWord;
