//! Where the things of an edge are.
ghost use Rattle.std.specs.Prelude.{◌≡◌, ◌<◌, ◌↔◌, IsTrue, length};
ghost use Rattle.lab_plan.specs.LabPlan.{edges};

use crate::end::End;
use crate::phase::Dining;
use lab_plan::{EdgeNo, Plan};
use std::alloc::Allocator;

/// Where the things of an edge are: its fork, the fork's request token, the bottles and their tokens.
/// A set of bottles is a number, in which bit `k` stands for bottle `k` of the edge, below 28.
#[derive(Clone, Copy, PartialEq, Eq, Debug)]
pub struct EdgeState {
    /// The end of the fork.
    pub fork: End,
    /// Whether the fork is dirty.
    pub dirty: bool,
    /// The end of the fork's request token.
    pub token: End,
    /// The bottles at the higher end; all others are at the lower.
    pub bottles: u32,
    /// The bottles whose request tokens are at the higher end.
    pub bottle_tokens: u32,
}

impl EdgeState {
    ghost use Rattle.legal_steps.specs.State.{IsOfEdge, bottles_at};
    ghost use Rattle.legal_steps.specs.Legal.{fork_mark_seen};

    /// Whether a look from this end, of a job that dines so, sets the mark for the fork: if the fork is
    /// here, and dirty while the job eats; while it doesn't eat, clean or without its request token, so that
    /// its neighbour has no claim to it.
    #[tactic(auto, unfolding(crate::specs::Legal::fork_mark_seen))]
    pub fn fork_mark(self, here: End, dining: Dining) -> bool
        ensures { result ≡ fork_mark_seen dining here self }
    {
        if dining == Dining::Eating {
            self.fork == here && self.dirty
        } else {
            self.fork == here && (!self.dirty || self.token != here)
        }
    }

    /// The bottles that are at this end of the edge; bit `k` for bottle `k`. A look from here sets marks for these.
    #[tactic(auto, unfolding(crate::specs::State::bottles_at), using(std::proofs::lemmas::Nat::xor_lt))]
    pub fn bottles_at<A: Allocator>(self, plan: &Plan<A>, edge: EdgeNo, here: End) -> u32
        requires { edge < length (edges plan.now) }
        ensures bottles { result ≡ bottles_at plan.now edge here self }
        ensures of_edge { IsOfEdge plan.now edge self.bottles → IsOfEdge plan.now edge result }
    {
        match here {
            End::Higher => self.bottles,
            End::Lower => ((1u32 << plan.bottles(edge)) - 1) ^ self.bottles,
        }
    }
}

impl EdgeState {
    ghost use Rattle.legal_steps.specs.Guards.{GivesFork, Soils, WantsFork};

    /// Whether a job at this end that dines so may ask for the fork.
    pub fn wants_fork(self, here: End, dining: Dining) -> bool
        ensures { IsTrue result ↔ WantsFork dining here self }
    {
        dining == Dining::Hungry && self.fork != here && self.token == here
    }

    /// Whether a job at this end that dines so may give the fork.
    pub fn gives_fork(self, here: End, dining: Dining) -> bool
        ensures { IsTrue result ↔ GivesFork dining here self }
    {
        dining != Dining::Eating && self.fork == here && self.dirty && self.token == here
    }

    /// Whether a job at this end that dines so may soil the fork.
    pub fn soils(self, here: End, dining: Dining) -> bool
        ensures { IsTrue result ↔ Soils dining here self }
    {
        dining == Dining::Eating && self.fork == here && !self.dirty
    }
}

impl EdgeState {
    ghost use Rattle.legal_steps.specs.Legal.{bottles_asked, bottles_given, fork_asked, fork_given, fork_soiled};

    /// The edge after the fork was asked for.
    pub fn fork_asked(self) -> EdgeState
        ensures { result ≡ fork_asked self }
    {
        EdgeState {
            token: self.token.other(),
            ..self
        }
    }

    /// The edge after the fork was given.
    pub fn fork_given(self) -> EdgeState
        ensures { result ≡ fork_given self }
    {
        EdgeState {
            fork: self.fork.other(),
            dirty: false,
            ..self
        }
    }

    /// The edge after the fork was soiled.
    pub fn fork_soiled(self) -> EdgeState
        ensures { result ≡ fork_soiled self }
    {
        EdgeState {
            dirty: true,
            ..self
        }
    }

    /// The edge after these bottles were asked for.
    pub fn bottles_asked(self, set: u32) -> EdgeState
        ensures { result ≡ bottles_asked set self }
    {
        EdgeState {
            bottle_tokens: self.bottle_tokens ^ set,
            ..self
        }
    }

    /// The edge after these bottles were given.
    pub fn bottles_given(self, set: u32) -> EdgeState
        ensures { result ≡ bottles_given set self }
    {
        EdgeState {
            bottles: self.bottles ^ set,
            ..self
        }
    }
}

/// Where the things of one edge start. Every fork starts dirty, every request token at the end
/// opposite to its fork or bottle.
#[derive(Clone, Copy, PartialEq, Eq, Debug)]
pub struct EndChoice {
    /// The end of the fork.
    pub fork: End,
    /// The bottles at the higher end; bit `k` for bottle `k`.
    pub bottles: u32,
}
