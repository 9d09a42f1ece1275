//! Which instruments each job names, as sets.
ghost use Rattle.std.specs.Prelude.{◌≡◌, ℕ, ◌<◌, ◌≤◌, length, slice_index_or};
ghost use Rattle.std.specs.List.{All, list_any};
ghost use Rattle.lab_plan.specs.Limits.{most_jobs, most_instruments};
ghost use Rattle.lab_plan.specs.IsPlan.{IsDraft};
ghost use Rattle.lab_plan.specs.Building.{has_too_many_in_common};
ghost use Rattle.lab_plan.specs.InstrumentSets.{holds};
ghost use Rattle.lab_plan.specs.LabPlan.{is_named_by};
ghost use Rattle.lab_plan.specs.NamedBy.{AreNaming, HasSmall, meet, are_crowded, row, rows};

use crate::draft::Draft;
use crate::instrument_set::InstrumentSet;
use crate::job::Job;
use crate::limits::{MOST_BOTTLES, MOST_JOBS};
use std::alloc::Allocator;

/// The instruments that a job's sessions name.
pub(crate) fn named_by<A: Allocator>(job: &Job<A>) -> InstrumentSet
    requires { HasSmall job.now }
    ensures { (i : ℕ) → holds result i ≡ is_named_by job.now i }
{
    InstrumentSet::of(job.all_commands())
}

#[derive(Clone, Copy)]
pub(crate) struct Naming {
    sets: [InstrumentSet; MOST_JOBS],
    jobs: u8,
    instruments: u8,
}

impl Naming {
    pub(crate) fn new<A: Allocator>(draft: &Draft<A>) -> Naming
        requires few { length draft.now.jobs ≤ most_jobs }
        requires small { All HasSmall draft.now.jobs }
        requires few_instruments { length draft.now.instruments ≤ most_instruments }
        ensures naming { AreNaming draft.now.jobs result.sets }
        ensures jobs { result.jobs ≡ length draft.now.jobs }
        ensures instruments { result.instruments ≡ length draft.now.instruments }
    {
        let mut sets = [InstrumentSet::empty(); MOST_JOBS];
        for (j, job) in draft.all_jobs().iter().enumerate() {
            sets[j] = named_by(job);
        }
        Naming {
            sets,
            jobs: draft.jobs() as u8,
            instruments: draft.instruments() as u8,
        }
    }

    pub(crate) fn set(&self, job: u8) -> InstrumentSet
        requires { job < most_jobs }
        ensures { result ≡ slice_index_or self.now.sets job 0 }
    {
        self.sets[job as usize]
    }

    pub(crate) fn jobs(&self) -> u8
        ensures { result ≡ self.now.jobs }
    {
        self.jobs
    }

    pub(crate) fn instruments(&self) -> u8
        ensures { result ≡ self.now.instruments }
    {
        self.instruments
    }

    /// Whether two jobs name some instrument together.
    pub(crate) fn meet(&self, low: u8, high: u8) -> bool
        requires low { low < most_jobs }
        requires high { high < most_jobs }
        requires instruments { self.now.instruments ≤ most_instruments }
        ensures { result ≡ meet self.now.sets self.now.instruments (low, high) }
    {
        self.set(low).meets(self.set(high), self.instruments)
    }

    fn are_crowded(&self, low: u8, high: u8) -> bool
        requires low { low < most_jobs }
        requires high { high < most_jobs }
        requires instruments { self.now.instruments ≤ most_instruments }
        ensures { result ≡ are_crowded self.now.sets self.now.instruments (low, high) }
    {
        self.set(low).in_common(self.set(high), self.instruments) > MOST_BOTTLES
    }

    #[tactic(auto, using(crate::proofs::Pairs::row_none, crate::proofs::Pairs::any_row_more))]
    fn has_crowded_with(&self, low: u8) -> bool
        requires low { low < self.now.jobs }
        requires jobs { self.now.jobs ≤ most_jobs }
        requires instruments { self.now.instruments ≤ most_instruments }
        ensures { result ≡ list_any (are_crowded self.now.sets self.now.instruments) (row low self.now.jobs) }
    {
        for high in low + 1..self.jobs {
            if self.are_crowded(low, high) {
                return true;
            }
        }
        false
    }

    #[tactic(auto, using(crate::proofs::Pairs::any_rows_more))]
    /// Whether two jobs have too many instruments in common.
    pub(crate) fn has_crowded(&self) -> bool
        requires jobs { self.now.jobs ≤ most_jobs }
        requires instruments { self.now.instruments ≤ most_instruments }
        ensures { result ≡ list_any (are_crowded self.now.sets self.now.instruments) (rows self.now.jobs self.now.jobs) }
    {
        for low in 0..self.jobs {
            if self.has_crowded_with(low) {
                return true;
            }
        }
        false
    }
}

/// Whether two jobs have too many instruments in common.
pub(crate) fn has_too_many_in_common<A: Allocator>(draft: &Draft<A>) -> bool
    requires { IsDraft draft.now }
    ensures { result ≡ has_too_many_in_common draft.now }
{
    Naming::new(draft).has_crowded()
}
