//! Which sessions stand right before which, in a log or among their job's own, and which of some stand right behind another of them.
ghost use Rattle.std.specs.Prelude.{◌≡◌, ◌<◌, ◌+◌, ℕ, List, slice_index_or, true, false, None, map, length, IfSome, IfOk};
ghost use Rattle.report_reader.specs.Form.{entry_text, job_text};
ghost use Rattle.timeline.specs.Orders.{AreOf, IsOpen, Adds, ArePairs, AreBehindBelow, AreBehind};
ghost use Rattle.timeline.specs.TwoSlots.{two_slots};

use crate::own::own_pairs;
use crate::span::slot_of;
use report_reader::{EntryLine, JobLine, Log};
use std::alloc::{AllocError, Allocator};

/// Both slots, if they are two.
fn two_slots(x: Option<usize>, y: Option<usize>) -> Option<(usize, usize)>
    ensures { result ≡ two_slots x y }
{
    let x = x?;
    let y = y?;
    if x == y { None } else { Some((x, y)) }
}

/// The slots of two entries, if they are of two sessions.
fn slots(jobs: &[JobLine], before: &EntryLine, entry: &EntryLine) -> Option<(usize, usize)>
    ensures some { IfSome result (λ (x, y). AreOf (map job_text jobs.now) (entry_text before.now) (entry_text entry.now) x y) }
    ensures none { result ≡ None → (x y : ℕ) → AreOf (map job_text jobs.now) (entry_text before.now) (entry_text entry.now) x y → ⊥ }
{
    let x = slot_of(jobs, before);
    let y = slot_of(jobs, entry);
    two_slots(x, y)
}

/// Whether a slot is marked.
pub(crate) fn is_open(marks: &[bool], slot: usize) -> bool
    ensures yes { result ≡ true → IsOpen marks.now slot }
    ensures no { result ≡ false → IsOpen marks.now slot → ⊥ }
{
    slot < marks.len() && marks[slot]
}

/// Adds the pairs of a log.
fn add_log<A: Allocator>(
    jobs: &[JobLine],
    entries: &[EntryLine],
    pairs: &mut Vec<(usize, usize), A>,
) -> Result<(), AllocError>
    ensures { IfOk result (λ done. Adds (map job_text jobs.now) (map entry_text entries.now) pairs.old.items pairs.new.items) }
{
    for place in 0..entries.len().saturating_sub(1) {
        if let Some(pair) = slots(jobs, &entries[place], &entries[place + 1]) {
            pairs.push(pair)?;
        }
    }
    Ok(())
}

/// The sessions of which the second is the next of its job after the first, or a log has the first right before the second, by their slots.
pub(crate) fn pairs_of<'a, A: Allocator + Copy>(
    alloc: A,
    jobs: &[JobLine],
    logs: &[Log<'a, A>],
) -> Result<Vec<(usize, usize), A>, AllocError>
    ensures { IfOk result (λ pairs. ArePairs (map job_text jobs.now) logs.now pairs.items) }
{
    let mut pairs = own_pairs(alloc, jobs, logs)?;
    for log in logs {
        add_log(jobs, log.entries(), &mut pairs)?;
    }
    Ok(pairs)
}

/// Marks the second of a pair, if both are of some.
fn mark_behind<A: Allocator>(marks: &[bool], behind: &mut Vec<bool, A>, x: usize, y: usize)
    requires { length behind.old.items ≡ length marks.now }
    ensures { (pairs : List (ℕ × ℕ)) (k : ℕ) → k < length pairs → slice_index_or pairs k (0, 0) ≡ (x, y) → AreBehindBelow pairs marks.now k behind.old.items
        → AreBehindBelow pairs marks.now (k + 1) behind.new.items }
{
    if is_open(marks, x) && is_open(marks, y) {
        behind[y] = true;
    }
}

/// Those that a pair has behind another that is marked.
pub(crate) fn behind_open<A: Allocator + Copy>(
    alloc: A,
    pairs: &[(usize, usize)],
    marks: &[bool],
) -> Result<Vec<bool, A>, AllocError>
    ensures { IfOk result (λ behind. AreBehind pairs.now marks.now behind.items) }
{
    let mut behind = vec![in alloc; false; marks.len()]?;
    for &(x, y) in pairs {
        mark_behind(marks, &mut behind, x, y);
    }
    Ok(behind)
}
