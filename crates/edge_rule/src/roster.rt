//! Which desks are there.
ghost use Rattle.std.specs.Prelude.{◌≡◌, ◌↔◌, ℕ, ◌<◌, ◌==◌, length, IsTrue};
ghost use Rattle.std.specs.List.{count_by};
ghost use Rattle.edge_rule.specs.Company.{Distinct, jobs_of};
ghost use Rattle.edge_rule.specs.Ending.{HasAll, HasEach};

use crate::bench::Bench;
use crate::desk::Desk;
use lab_plan::JobNo;
use std::alloc::Allocator;

/// How many of the desks are of this job.
fn desks_of<A: Allocator>(desks: &[Desk<A>], job: JobNo) -> usize
    ensures { result ≡ count_by (λ k. k == job) (jobs_of desks.now) }
{
    let mut count = 0;
    for desk in desks {
        if desk.job() == job {
            count += 1;
        }
    }
    count
}

/// Whether each of this many jobs has a desk.
fn has_each<A: Allocator>(desks: &[Desk<A>], jobs: usize) -> bool
    requires { jobs < 256 }
    ensures { IsTrue result ↔ HasEach jobs desks.now }
{
    for job in 0..jobs {
        if desks_of(desks, JobNo(job as u8)) == 0 {
            return false;
        }
    }
    true
}

/// Whether no two desks are of one job.
fn are_apart<A: Allocator>(desks: &[Desk<A>]) -> bool
    ensures { IsTrue result ↔ Distinct (jobs_of desks.now) }
{
    for desk in desks {
        if desks_of(desks, desk.job()) > 1 {
            return false;
        }
    }
    true
}

impl<A: Allocator> Bench<'_, A> {
    /// Whether each job of the plan has one desk there, and no job a second.
    pub fn has_all(&self, desks: &[Desk<A>]) -> bool
        ensures { IsTrue result ↔ HasAll self.now.plan desks.now }
    {
        has_each(desks, self.plan.jobs()) && are_apart(desks)
    }
}
