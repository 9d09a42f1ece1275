//! The sessions that logs have entries of, and each with the next one of its job: a job ends a session before it begins the next.
ghost use Rattle.std.specs.Prelude.{◌≡◌, ◌<◌, ◌*◌, ℕ, None, map, length, IfSome, IfOk};
ghost use Rattle.lab_plan.specs.Limits.{most_jobs, most_sessions};
ghost use Rattle.report_reader.specs.Form.{entry_text, job_text};
ghost use Rattle.timeline.specs.Orders.{IsOpen, Marks, AreUsed, IsNextOwn, AreOwnPairs};

use crate::span::{SLOTS, slot_of};
use lab_plan::MOST_SESSIONS;
use report_reader::{EntryLine, JobLine, Log};
use std::alloc::{AllocError, Allocator};

/// Marks the slots of a log's entries.
fn mark_log<A: Allocator>(jobs: &[JobLine], entries: &[EntryLine], used: &mut Vec<bool, A>)
    requires { length used.old.items ≡ most_jobs * most_sessions }
    ensures { Marks (map job_text jobs.now) (map entry_text entries.now) used.old.items used.new.items }
{
    for entry in entries {
        if let Some(slot) = slot_of(jobs, entry) {
            used[slot] = true;
        }
    }
}

/// Marks on the slots of all entries.
fn used_slots<'a, A: Allocator + Copy>(
    alloc: A,
    jobs: &[JobLine],
    logs: &[Log<'a, A>],
) -> Result<Vec<bool, A>, AllocError>
    ensures { IfOk result (λ used. AreUsed (map job_text jobs.now) logs.now used.items) }
{
    let mut used = vec![in alloc; false; SLOTS]?;
    for log in logs {
        mark_log(jobs, log.entries(), &mut used);
    }
    Ok(used)
}

/// The next marked slot of the same job, if this one is marked.
fn next_own(used: &[bool], slot: usize) -> Option<usize>
    requires { slot < length used.now }
    ensures some { IfSome result (λ next. IsNextOwn used.now slot next) }
    ensures none { result ≡ None → (y : ℕ) → IsNextOwn used.now slot y → ⊥ }
{
    if !used[slot] {
        return None;
    }
    let each = MOST_SESSIONS as usize;
    for next in slot + 1..used.len() {
        if next / each != slot / each {
            return None;
        }
        if used[next] {
            return Some(next);
        }
    }
    None
}

/// Each session that logs have entries of, with the next one of its job, by their slots.
pub(crate) fn own_pairs<'a, A: Allocator + Copy>(
    alloc: A,
    jobs: &[JobLine],
    logs: &[Log<'a, A>],
) -> Result<Vec<(usize, usize), A>, AllocError>
    ensures { IfOk result (λ pairs. AreOwnPairs (map job_text jobs.now) logs.now pairs.items) }
{
    let used = used_slots(alloc, jobs, logs)?;
    let mut pairs = Vec::new(alloc);
    for slot in 0..used.len() {
        if let Some(next) = next_own(&used, slot) {
            pairs.push((slot, next))?;
        }
    }
    Ok(pairs)
}
