//! The word of an edge.
ghost use Rattle.std.specs.Prelude.{◌≡◌, ◌≢◌, ℕ, ◌%◌, ◌^◌, ◌<◌, ◌≤◌, [], ◌∷◌, IfSome, IfNone, IsTrue, ◌↔◌};
ghost use Rattle.lab_plan.specs.Limits.{most_bottles};
ghost use Rattle.legal_steps.specs.declared.edge_state.EdgeState.{EdgeState};
ghost use Rattle.legal_steps.specs.declared.event.Event.TheVariants.{AskFork, GiveFork, Soil, AskBottles, GiveBottles};
ghost use Rattle.legal_steps.specs.State.{bottle_end};
ghost use Rattle.legal_steps.specs.Legal.{fork_asked, fork_given, fork_soiled, bottles_asked, bottles_given};
ghost use Rattle.edge_word.specs.Words.{word_of, end_at, stray_bits, opening_edge, IsOfBottles, IsSetOf};
ghost use Rattle.edge_word.specs.Moves.{mask, flipped, after_moves, events_of, Lead, AreOfBottles};

use crate::moves::EdgeMoves;
use legal_steps::{EdgeState, End};
use std::marker::Model;

/// The places of the fields in a word.
const FORK: u32 = 0;

const DIRTY: u32 = 1;

const TOKEN: u32 = 2;

const ZERO: u32 = 3;

const BOTTLES: u32 = 4;

const BOTTLE_TOKENS: u32 = 32;

/// The fork is at the lower end and dirty, and its token at the higher.
const DIRTY_AND_ASKABLE: u64 = (1 << TOKEN) + (1 << DIRTY);

/// As many bits as an edge has bottles at most.
const ALL_BOTTLES: u64 = 0xfff_ffff;

/// The state of an edge in one word. Ends are 0 at the lower job and 1 at the higher.
///
/// | bits | meaning |
/// |---|---|
/// | `FORK`, 0 | end of the fork |
/// | `DIRTY`, 1 | 1 if the fork is dirty |
/// | `TOKEN`, 2 | end of the fork's request token |
/// | `ZERO`, 3 | zero |
/// | 4 to 31 | bit `BOTTLES + k`: end of bottle `k` |
/// | 32 to 59 | bit `BOTTLE_TOKENS + k`: end of the request token of bottle `k` |
/// | 60 to 63 | zero |
///
/// Bits of bottles that the edge doesn't have are zero. All eight values of the lowest three bits occur: if the fork and its
/// token are at the same end, the other end has asked for the fork, and if they are apart, it hasn't. So it is with each bottle.
#[derive(Clone, Copy, PartialEq, Eq, Debug)]
pub struct EdgeWord {
    word: u64,
}

impl Model for EdgeWord {
    ghost use Rattle.lab_plan.specs.Limits.{most_bottles};
    ghost use Rattle.legal_steps.specs.declared.edge_state.EdgeState.{EdgeState};
    ghost use Rattle.std.proofs.Common.{ap};
    ghost use Rattle.edge_word.specs.Words.{word_of, state_of, IsEdgeWord};
    ghost use Rattle.edge_word.specs.WordCodec.{word_of-state_of};

    ghost Value = { EdgeState };

    ghost view = { λ a. state_of a.word };

    ghost invariant = { λ a. IsEdgeWord a.word };

    ghost inverse = { λ x. record { word = word_of x } };

    ghost inverse_ok = { λ a h. ap (λ w. record { word = w }) (word_of-state_of a.word h) };
}

/// Which things change their end, and whether the fork changes between clean and dirty.
#[derive(Clone, Copy, PartialEq, Eq, Debug)]
struct Flips {
    fork: bool,
    dirty: bool,
    token: bool,
    bottles: u32,
    bottle_tokens: u32,
}

const NO_FLIP: Flips = Flips {
    fork: false,
    dirty: false,
    token: false,
    bottles: 0,
    bottle_tokens: 0,
};

/// Whether the set is not empty and names only bottles of an edge that has this many.
pub fn is_bottle_set(set: u32, bottles: u32) -> bool
    requires few { bottles ≤ most_bottles }
    ensures is_set { IsTrue result ↔ IsSetOf bottles set }
    ensures fits_words { IsTrue result → IsSetOf most_bottles set }
{
    set != 0 && (set >> bottles) == 0
}

#[tactic(auto, unfolding(crate::specs::Words::end_at))]
fn end_of(word: u64) -> End
    ensures { result ≡ end_at (word % 2) }
{
    if word & 1 == 0 {
        End::Lower
    } else {
        End::Higher
    }
}

/// Bit 3, and the bits of bottles that the edge doesn't have, added up.
fn stray_bits_of(word: u64, bottles: u32) -> u64
    requires { bottles ≤ most_bottles }
    ensures { result ≡ stray_bits word bottles }
{
    let set = (word >> BOTTLES) & ALL_BOTTLES;
    let tokens = word >> BOTTLE_TOKENS;
    (word >> ZERO & 1) + (set >> bottles) + (tokens >> bottles)
}

/// The bits of the things that change.
#[tactic(auto, unfolding(crate::specs::Words::word_of_fields))]
fn mask_of(flips: Flips) -> u64
    requires bottles { flips.bottles < 2 ^ 28 }
    requires tokens { flips.bottle_tokens < 2 ^ 28 }
    ensures { result ≡ mask flips }
{
    let low = ((flips.token as u64) << TOKEN) + ((flips.dirty as u64) << DIRTY) + flips.fork as u64;
    ((flips.bottle_tokens as u64) << BOTTLE_TOKENS) + ((flips.bottles as u64) << BOTTLES) + low
}

impl EdgeWord {
    /// The word of an edge with this many bottles in the initial state: fork and bottles at the lower job, the fork dirty,
    /// every request token at the higher.
    pub fn opening(bottles: u32) -> EdgeWord
        requires few { bottles ≤ most_bottles }
        ensures { result ≡ opening_edge bottles }
    {
        EdgeWord {
            word: (((1u64 << bottles) - 1) << BOTTLE_TOKENS) + DIRTY_AND_ASKABLE,
        }
    }

    /// The edge that a word spells, or None exactly if a bit is set that must be zero.
    pub fn unpack(word: u64, bottles: u32) -> Option<EdgeWord>
        requires some_bottle { 1 ≤ bottles }
        requires few { bottles ≤ most_bottles }
        ensures spelled { IfSome result (λ x. (word_of x ≡ word) × IsOfBottles bottles x) }
        ensures refused { IfNone result ((x : EdgeState) → IsOfBottles bottles x → word_of x ≢ word) }
    {
        if stray_bits_of(word, bottles) == 0 {
            Some(EdgeWord { word })
        } else {
            None
        }
    }

    /// The edge that a word spells, if it is known to spell one: no bit of it is tested. Any other word is
    /// for [`unpack`](Self::unpack).
    pub fn spelled(word: u64) -> EdgeWord
        requires { (x : EdgeState) × (word ≡ word_of x) × IsOfBottles most_bottles x }
        ensures word { word_of result ≡ word }
        ensures fits { IsOfBottles most_bottles result }
    {
        EdgeWord { word }
    }

    /// The word itself.
    #[tactic(auto, using(crate::proofs::WordBits::word_behind))]
    pub fn pack(self) -> u64
        ensures { result ≡ word_of self }
    {
        self.word
    }

    /// The end of the fork.
    #[tactic(auto, unfolding(crate::specs::Words::state_of, crate::specs::Words::flag_at))]
    pub fn fork_end(self) -> End
        ensures { result ≡ self.fork }
    {
        end_of(self.word >> FORK)
    }

    /// Whether the fork is dirty.
    #[tactic(auto, unfolding(crate::specs::Words::state_of, crate::specs::Words::flag_at))]
    pub fn dirty(self) -> bool
        ensures { result ≡ self.dirty }
    {
        (self.word >> DIRTY) & 1 != 0
    }

    /// The end of the fork's request token.
    #[tactic(auto, unfolding(crate::specs::Words::state_of, crate::specs::Words::flag_at))]
    pub fn token_end(self) -> End
        ensures { result ≡ self.token }
    {
        end_of(self.word >> TOKEN)
    }

    /// The end of bottle `k`; the lower for a bottle that the edge doesn't have.
    #[tactic(auto, using(crate::proofs::WordBits::bottle_read))]
    pub fn bottle_end(self, k: u32) -> End
        requires { k < most_bottles }
        ensures { result ≡ bottle_end self.bottles k }
    {
        end_of(self.word >> (BOTTLES + k))
    }

    /// The end of the request token of bottle `k`; the lower for a bottle that the edge doesn't have.
    #[tactic(auto, using(crate::proofs::WordBits::token_read))]
    pub fn bottle_token_end(self, k: u32) -> End
        requires { k < most_bottles }
        ensures { result ≡ bottle_end self.bottle_tokens k }
    {
        end_of(self.word >> (BOTTLE_TOKENS + k))
    }

    /// The state that the word spells.
    #[tactic(auto, unfolding(crate::specs::Words::state_of))]
    pub fn unpacked(self) -> EdgeState
        ensures { result ≡ self }
    {
        let dirty = self.dirty();
        EdgeState {
            fork: self.fork_end(),
            dirty,
            token: self.token_end(),
            bottles: ((self.word >> BOTTLES) & ALL_BOTTLES) as u32,
            bottle_tokens: (self.word >> BOTTLE_TOKENS) as u32,
        }
    }

    fn flipped(self, flips: Flips) -> EdgeWord
        requires bottles { flips.bottles < 2 ^ 28 }
        requires tokens { flips.bottle_tokens < 2 ^ 28 }
        ensures { result ≡ flipped flips self }
    {
        EdgeWord {
            word: self.word ^ mask_of(flips),
        }
    }

    /// The word after a request for the fork: its token is at the other end.
    pub fn asked_fork(self) -> EdgeWord
        ensures edge { result ≡ fork_asked self }
        ensures event { Lead (λ j e. AskFork j e ∷ []) self result }
    {
        self.flipped(Flips {
            token: true,
            ..NO_FLIP
        })
    }

    /// The word after the fork was given: it is at the other end, and clean.
    pub fn given_fork(self) -> EdgeWord
        ensures edge { result ≡ fork_given self }
        ensures event { Lead (λ j e. GiveFork j e ∷ []) self result }
    {
        self.flipped(Flips {
            fork: true,
            dirty: self.dirty(),
            ..NO_FLIP
        })
    }

    /// The word after the fork was made dirty.
    pub fn soiled(self) -> EdgeWord
        ensures edge { result ≡ fork_soiled self }
        ensures event { Lead (λ j e. Soil j e ∷ []) self result }
    {
        self.flipped(Flips {
            dirty: !self.dirty(),
            ..NO_FLIP
        })
    }

    /// The word after a request for a set of bottles: their tokens are at the other end. That the set is
    /// of the edge is tested by `is_bottle_set`.
    pub fn asked_bottles(self, set: u32) -> EdgeWord
        requires of_edge { IsSetOf most_bottles set }
        ensures edge { result ≡ bottles_asked set self }
        ensures event { Lead (λ j e. AskBottles j e set ∷ []) self result }
    {
        self.flipped(Flips {
            bottle_tokens: set,
            ..NO_FLIP
        })
    }

    /// The word after a set of bottles was given: they are at the other end. That the set is of the edge
    /// is tested by `is_bottle_set`.
    pub fn given_bottles(self, set: u32) -> EdgeWord
        requires of_edge { IsSetOf most_bottles set }
        ensures edge { result ≡ bottles_given set self }
        ensures event { Lead (λ j e. GiveBottles j e set ∷ []) self result }
    {
        self.flipped(Flips {
            bottles: set,
            ..NO_FLIP
        })
    }

    /// The word after a group of moves, in their order. That their sets are of the edge is tested by
    /// `EdgeMoves::are_of_bottles`.
    pub fn moved(self, moves: EdgeMoves) -> EdgeWord
        requires of_edge { AreOfBottles most_bottles moves }
        ensures edge { result ≡ after_moves moves self }
        ensures events { Lead (events_of moves) self result }
    {
        let dirty = self.dirty();
        let stays = dirty && !moves.give_fork;
        self.flipped(Flips {
            fork: moves.give_fork,
            dirty: dirty != (stays || moves.soil),
            token: moves.ask_fork,
            bottles: moves.give_bottles,
            bottle_tokens: moves.ask_bottles,
        })
    }
}
