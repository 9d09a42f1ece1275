//! Sets of instruments, a bit for each.
ghost use Rattle.std.specs.Prelude.{◌≡◌, ℕ, ◌<◌, ◌≤◌, ◌||◌, ◌==◌, length, filter};
ghost use Rattle.std.specs.List.{All, list_any, range_with_len};
ghost use Rattle.lab_plan.specs.Limits.{most_instruments};
ghost use Rattle.lab_plan.specs.LabPlan.{any_on};
ghost use Rattle.lab_plan.specs.InstrumentSets.{holds, both_in};

use crate::numbers::InstrumentNo;
use crate::verb::Verb;
use std::marker::Model;

#[derive(Clone, Copy)]
pub(crate) struct InstrumentSet {
    bits: u64,
}

impl Model for InstrumentSet {
    ghost Value = { ℕ };

    ghost view = { λ s. s.bits };

    ghost inverse = { λ n. record { bits = n } };
}

impl InstrumentSet {
    pub(crate) fn empty() -> InstrumentSet
        ensures { result ≡ 0 }
    {
        InstrumentSet { bits: 0 }
    }

    pub(crate) fn bits(self) -> u64
        ensures { result ≡ self }
    {
        self.bits
    }

    #[tactic(auto, using(crate::proofs::Bits::holds_is))]
    pub(crate) fn holds(self, instrument: u8) -> bool
        requires { instrument < 64 }
        ensures { result ≡ holds self instrument }
    {
        self.bits >> instrument & 1 == 1
    }

    /// Whether it holds an instrument, also one that no plan has.
    #[tactic(auto, using(crate::proofs::Bits::holds_past))]
    pub(crate) fn has(self, instrument: InstrumentNo) -> bool
        ensures { result ≡ holds self instrument }
    {
        instrument.0 < 64 && self.holds(instrument.0)
    }

    pub(crate) fn both_hold(self, other: InstrumentSet, instrument: u8) -> bool
        requires { instrument < 64 }
        ensures { result ≡ both_in self other instrument }
    {
        self.holds(instrument) && other.holds(instrument)
    }

    #[tactic(auto, using(crate::proofs::Bits::holds_with))]
    pub(crate) fn with(self, instrument: InstrumentNo) -> InstrumentSet
        requires { instrument < 64 }
        ensures { (i : ℕ) → holds result i ≡ (holds self i || instrument == i) }
    {
        InstrumentSet {
            bits: self.bits | 1 << instrument.0,
        }
    }

    /// The instruments of some commands.
    #[tactic(auto, using(crate::proofs::Bits::holds_none))]
    pub(crate) fn of(commands: &[(InstrumentNo, Verb)]) -> InstrumentSet
        requires { All (λ command. command.0 < most_instruments) commands.now }
        ensures { (i : ℕ) → holds result i ≡ any_on i commands.now }
    {
        let mut set = InstrumentSet::empty();
        for (instrument, _) in commands {
            set = set.with(*instrument);
        }
        set
    }

    /// How many of the first instruments are in both sets.
    #[tactic(auto, using(crate::proofs::Ranges::count_more))]
    pub(crate) fn in_common(self, other: InstrumentSet, instruments: u8) -> u8
        requires { instruments ≤ most_instruments }
        ensures { result ≡ length (filter (both_in self other) (range_with_len 0 instruments)) }
    {
        let mut count = 0;
        for i in 0..instruments {
            if self.both_hold(other, i) {
                count += 1;
            }
        }
        count
    }

    /// Whether one of the first instruments is in both sets.
    #[tactic(auto, using(crate::proofs::Ranges::any_more))]
    pub(crate) fn meets(self, other: InstrumentSet, instruments: u8) -> bool
        requires { instruments ≤ most_instruments }
        ensures { result ≡ list_any (both_in self other) (range_with_len 0 instruments) }
    {
        for i in 0..instruments {
            if self.both_hold(other, i) {
                return true;
            }
        }
        false
    }
}

/// Whether a set of instruments has this one: bit i stands for instrument i, and a plan has 56 at most.
#[tactic(auto, using(crate::proofs::Bits::holds_is))]
pub fn has_instrument(set: u64, instrument: InstrumentNo) -> bool
    requires { instrument < 64 }
    ensures { result ≡ holds set instrument }
{
    set >> instrument.0 & 1 == 1
}
