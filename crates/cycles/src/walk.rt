//! A walk that comes back.
ghost use Rattle.std.specs.Prelude.{◌≡◌, ℕ, ◌<◌, List, length, slice_index_or, IfOk};
ghost use Rattle.std.specs.List.{Contains};
ghost use Rattle.cycles.specs.Cycles.{AreBelow, IsAmong, IsCycleOf};
ghost use Rattle.cycles.specs.Peeling.{IsLeft, EachLeadsOn};
ghost use Rattle.cycles.specs.Walks.{Returns};

use crate::no_memory::NoMemory;
use crate::sinks::next_left;
use lab_plan::JobNo;
use std::alloc::{Allocator, Global};

/// The jobs of a walk, in order, and the one of them to which the last leads.
#[derive(Drop)]
pub(crate) struct Walk<A: Allocator = Global> {
    jobs: Vec<JobNo, A>,
    back_to: JobNo,
}

impl<A: Allocator + Copy> Walk<A> {
    /// Walks along pairs to jobs that are left, until the walk meets itself.
    pub(crate) fn along(
        alloc: A,
        pairs: &[(JobNo, JobNo)],
        left: &[bool],
        start: JobNo,
    ) -> Result<Walk<A>, NoMemory>
        requires below { AreBelow (length left.now) pairs.now }
        requires start { IsLeft left.now start }
        requires each { EachLeadsOn pairs.now left.now }
        ensures { IfOk result (λ walk. Returns (IsAmong pairs.now) walk.jobs.items walk.back_to) }
    {
        let mut fresh = vec![in alloc; true; left.len()]?;
        let mut jobs = Vec::new(alloc);
        let mut at = start;
        while fresh[at.0 as usize] {
            fresh[at.0 as usize] = false;
            jobs.push(at)?;
            match next_left(pairs, left, at.0 as usize) {
                Some(next) => at = next,
                None => unreachable!(),
            }
        }
        Ok(Walk { jobs, back_to: at })
    }

    /// The part of the walk from the job to which it comes back.
    pub(crate) fn into_cycle(self) -> Result<Vec<JobNo, A>, NoMemory>
        requires { Contains self.jobs.items self.back_to }
        ensures { IfOk result (λ cycle. (pairs : List (ℕ × ℕ)) → Returns (IsAmong pairs) self.jobs.items self.back_to → IsCycleOf (IsAmong pairs) cycle.items) }
    {
        let Walk { mut jobs, back_to } = self;
        let met = place_of(&jobs, back_to);
        Ok(jobs.split_off(met)?)
    }
}

/// A place of a job that is among them.
fn place_of(jobs: &[JobNo], job: JobNo) -> usize
    requires { Contains jobs.now job }
    ensures within { result < length jobs.now }
    ensures job { slice_index_or jobs.now result 0 ≡ job }
{
    for place in 0..jobs.len() {
        if jobs[place] == job {
            return place;
        }
    }
    unreachable!()
}
