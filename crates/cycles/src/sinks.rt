//! Taking out jobs that lead on to none that is left. `left` says by number which jobs are left.
ghost use Rattle.std.specs.Prelude.{◌≡◌, ℕ, ◌<◌, length, MatchOption, IfSome};
ghost use Rattle.cycles.specs.Cycles.{AreBelow};
ghost use Rattle.cycles.specs.Peeling.{IsLeft, LeadsOn, IsSink, IsSinkLeft, EachLeadsOn, NoCycleBeginsOut};

use lab_plan::JobNo;
use std::alloc::Allocator;

/// A job that is left to which a pair leads from `job`.
pub(crate) fn next_left(pairs: &[(JobNo, JobNo)], left: &[bool], job: usize) -> Option<JobNo>
    requires { AreBelow (length left.now) pairs.now }
    ensures { MatchOption result (IsSink pairs.now left.now job) (λ next. LeadsOn pairs.now left.now job next) }
{
    for &(from, to) in pairs {
        if from.0 as usize == job && left[to.0 as usize] {
            return Some(to);
        }
    }
    None
}

/// A job that is left and leads on to none that is.
pub(crate) fn sink(pairs: &[(JobNo, JobNo)], left: &[bool]) -> Option<usize>
    requires { AreBelow (length left.now) pairs.now }
    ensures found { MatchOption result (EachLeadsOn pairs.now left.now) (λ job. IsSinkLeft pairs.now left.now job) }
    ensures within { IfSome result (λ job. job < length left.now) }
{
    for job in 0..left.len() {
        if left[job] && next_left(pairs, left, job).is_none() {
            return Some(job);
        }
    }
    None
}

/// Takes out sinks until each job that is left leads on to one that is.
pub(crate) fn take_out_sinks<A: Allocator>(pairs: &[(JobNo, JobNo)], left: &mut Vec<bool, A>)
    requires below { AreBelow (length left.old.items) pairs.now }
    requires out { NoCycleBeginsOut pairs.now left.old.items }
    ensures out { NoCycleBeginsOut pairs.now left.new.items }
    ensures each { EachLeadsOn pairs.now left.new.items }
    ensures len { length left.new.items ≡ length left.old.items }
{
    while let Some(job) = sink(pairs, left) {
        left[job] = false;
    }
}
