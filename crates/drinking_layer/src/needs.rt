//! Which bottles a job gives and asks for on an edge, by the edge as it was seen, its phase and the bottles that it needs.
ghost use Rattle.std.specs.Prelude.{◌≡◌};
ghost use Rattle.legal_steps.specs.State.{without as set_without};
ghost use Rattle.drinking_layer.specs.Local.{gifts as gifts_of, wishes as wishes_of, kept as kept_of};

use legal_steps::{Drinking, EdgeState, End, JobState};

/// The bottles of a set that aren't in the other.
fn without(set: u32, other: u32) -> u32
    ensures { result ≡ set_without set other }
{
    set ^ (set & other)
}

/// The bottles that are kept, needed as they are; `given` says whether the fork is sent away just before.
fn kept(phase: JobState, needed: u32, mine: EdgeState, given: bool) -> u32
    ensures { result ≡ kept_of phase needed mine given }
{
    let fork_here = (mine.fork == End::Higher) != given;
    if phase.is_drinking() || fork_here {
        needed
    } else {
        0
    }
}

/// The bottles that are given; `given` says whether the fork is sent away just before.
pub(crate) fn gifts(phase: JobState, needed: u32, mine: EdgeState, given: bool) -> u32
    ensures { result ≡ gifts_of phase needed mine given }
{
    without(
        mine.bottles & mine.bottle_tokens,
        kept(phase, needed, mine, given),
    )
}

/// The bottles that are asked for, if the bottles of `sent` are given before.
pub(crate) fn wishes(phase: JobState, needed: u32, mine: EdgeState, sent: u32) -> u32
    ensures { result ≡ wishes_of phase needed mine sent }
{
    if phase.drinking == Drinking::Thirsty {
        without(needed & mine.bottle_tokens, mine.bottles ^ sent)
    } else {
        0
    }
}
