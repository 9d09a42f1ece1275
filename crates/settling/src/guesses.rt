//! Where a job lacked something when it was asked last. It most often lacks it there yet, so that its other edges needn't be looked through.
//! These are guesses, and nothing rests on them.
ghost use Rattle.std.specs.Prelude.{◌≡◌};

use crate::due::Due;
use lab_plan::{EdgeNo, JobNo};
use std::alloc::Allocator;

/// What stands at a job's place in a list of guesses.
fn at(guesses: &[EdgeNo], job: JobNo) -> EdgeNo {
    match guesses.get(job.0 as usize) {
        Some(edge) => *edge,
        None => EdgeNo(0),
    }
}

/// An edge at which the job lacked a mark for a bottle.
pub(crate) fn dry_at<A: Allocator>(due: &Due<A>, job: JobNo) -> EdgeNo {
    at(&due.dry, job)
}

/// An edge without a fork mark.
pub(crate) fn bare_at<A: Allocator>(due: &Due<A>, job: JobNo) -> EdgeNo {
    at(&due.bare, job)
}

/// The job lacks a mark for a bottle of this edge.
pub(crate) fn is_dry<A: Allocator>(due: &mut Due<A>, job: JobNo, edge: EdgeNo)
    ensures { due.new ≡ due.old }
{
    let place = job.0 as usize;
    if place < due.dry.len() {
        due.dry[place] = edge;
    }
}

/// The job has no fork mark for this edge.
pub(crate) fn is_bare<A: Allocator>(due: &mut Due<A>, job: JobNo, edge: EdgeNo)
    ensures { due.new ≡ due.old }
{
    let place = job.0 as usize;
    if place < due.bare.len() {
        due.bare[place] = edge;
    }
}
