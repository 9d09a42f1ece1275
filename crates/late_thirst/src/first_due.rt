//! Who goes in first.
ghost use Rattle.std.specs.Prelude.{◌≡◌, ◌<◌, ◌≤◌, ◌+◌, ◌↔◌, IsTrue, length};
ghost use Rattle.late_thirst.specs.Outside.{IsDueAt, IsFirst};

use crate::asker::{Asker, Reason, is_due, since_of};
use crate::sets::{has, next_of};

/// Whether the job may be let in now, for this reason.
fn is_due_at(places: &[Option<Asker>], ready: u32, reason: Reason, job: usize) -> bool
    requires few { length places.now ≤ 32 }
    requires inside { job < length places.now }
    ensures { IsTrue result ↔ IsDueAt reason ready places.now job }
{
    if !has(ready, job) {
        return false;
    }
    is_due(places[job], reason)
}

/// Who asked first, of those before this job and the job itself.
fn pick(
    places: &[Option<Asker>],
    ready: u32,
    reason: Reason,
    job: usize,
    first: Option<usize>,
) -> Option<usize>
    requires few { length places.now ≤ 32 }
    requires inside { job < length places.now }
    requires so_far { IsFirst reason ready places.now job first }
    ensures { IsFirst reason ready places.now (job + 1) result }
{
    if !is_due_at(places, ready, reason, job) {
        return first;
    }
    let Some(other) = first else {
        return Some(job);
    };
    if since_of(places[other]) <= since_of(places[job]) {
        return first;
    }
    Some(job)
}

/// Who asked first of those that may be let in for this reason.
pub(crate) fn first_due(places: &[Option<Asker>], ready: u32, reason: Reason) -> Option<usize>
    requires { length places.now ≤ 32 }
    ensures { IsFirst reason ready places.now (length places.now) result }
{
    let end = places.len();
    let mut first = None;
    let mut job = next_of(ready, 0, end);
    while job < end {
        first = pick(places, ready, reason, job, first);
        job = next_of(ready, job + 1, end);
    }
    first
}
