//! The bottles of an edge.
ghost use Rattle.std.specs.Prelude.{◌≡◌, ◌↔◌, ℕ, ◌^◌, ◌<◌, ◌≤◌, true, length, filter, map, slice_index};
ghost use Rattle.std.specs.Prelude.{slice_index_or, slice_get, Contains, IfSome, IfNone, IfOk};
ghost use Rattle.std.specs.Int.{bit_at};
ghost use Rattle.std.specs.List.{range_with_len, All};
ghost use Rattle.lab_plan.specs.Limits.{most_instruments, most_bottles};
ghost use Rattle.lab_plan.specs.InstrumentSets.{holds, both_in};
ghost use Rattle.lab_plan.specs.NamedBy.{both_hold};
ghost use Rattle.lab_plan.specs.PairTables.{IsPair};

use crate::instrument_set::InstrumentSet;
use crate::named_sets::Naming;
use crate::numbers::{InstrumentNo, JobNo};
use std::alloc::{AllocError, Allocator, Global};
use std::marker::Model;

/// The bottles of an edge, ascending: one of each instrument that both its jobs name.
#[derive(Drop)]
pub(crate) struct Bottles<A: Allocator = Global> {
    instruments: Vec<InstrumentNo, A>,
}

impl<A: Allocator> Model for Bottles<A> {
    ghost use Rattle.std.specs.Prelude.{List, ℕ};

    ghost Value = { List ℕ };

    ghost view = { λ b. b.instruments.items };
}

impl<A: Allocator> Bottles<A> {
    fn new(
        alloc: A,
        first: InstrumentSet,
        second: InstrumentSet,
        instruments: u8,
    ) -> Result<Bottles<A>, AllocError>
        requires { instruments ≤ most_instruments }
        ensures { IfOk result (λ bottles. bottles ≡ filter (both_in first second) (range_with_len 0 instruments)) }
    {
        let mut found = Vec::new(alloc);
        for i in 0..instruments {
            if first.both_hold(second, i) {
                found.push(InstrumentNo(i))?;
            }
        }
        Ok(Bottles { instruments: found })
    }

    pub(crate) fn len(&self) -> usize
        ensures { result ≡ length self.now }
    {
        self.instruments.len()
    }

    pub(crate) fn at(&self, bottle: u32) -> InstrumentNo
        requires { bottle < length self.now }
        ensures { result ≡ slice_index self.now bottle }
    {
        self.instruments[bottle as usize]
    }

    /// The bottle of this instrument.
    pub(crate) fn place_of(&self, instrument: InstrumentNo) -> Option<u32>
        requires { length self.now < 2 ^ 32 }
        ensures found { IfSome result (λ k. slice_get self.now k ≡ Some instrument) }
        ensures none { IfNone result (¬ Contains self.now instrument) }
    {
        let mut next = 0u32;
        for other in &self.instruments {
            if *other == instrument {
                return Some(next);
            }
            next += 1;
        }
        None
    }

    /// The bottles whose instruments are in the set, as a set: bit k stands for bottle k.
    pub(crate) fn within(&self, instruments: InstrumentSet) -> u32
        requires few { length self.now ≤ most_bottles }
        requires numbered { All (λ i. i < most_instruments) self.now }
        ensures of_edge { result < 2 ^ length self.now }
        ensures just { (k : ℕ) → k < length self.now → (bit_at result k ≡ 1) ↔ (holds instruments (slice_index_or self.now k 0) ≡ true) }
    {
        let mut set = 0u32;
        for bottle in 0..self.len() as u32 {
            if instruments.holds(self.at(bottle).0) {
                set |= 1 << bottle;
            }
        }
        set
    }
}

/// The bottles of each edge.
pub(crate) fn bottles_of_all<A: Allocator + Copy>(
    alloc: A,
    naming: &Naming,
    pairs: &[(JobNo, JobNo)],
) -> Result<Vec<Bottles<A>, A>, AllocError>
    requires instruments { naming.now.instruments ≤ most_instruments }
    requires pairs { All IsPair pairs.now }
    ensures { IfOk result (λ all. all.items ≡ map (λ pair. filter (both_hold naming.now.sets pair) (range_with_len 0 naming.now.instruments)) pairs.now) }
{
    let mut all = Vec::new(alloc);
    for (low, high) in pairs {
        all.push(Bottles::new(
            alloc,
            naming.set(low.0),
            naming.set(high.0),
            naming.instruments(),
        )?)?;
    }
    Ok(all)
}
