//! Columns for the sessions one by one: a session is put right of all before it once no session that is left stands right before it.
ghost use Rattle.std.specs.Prelude.{◌≡◌, ◌<◌, ◌+◌, ◌≤◌, ◌*◌, ℕ, map, length, set, List, Bool, true, false, Some, None, IfOk, IfSome, MatchOption};
ghost use Rattle.report_reader.specs.Form.{job_text};
ghost use Rattle.lab_plan.specs.Limits.{most_commands};
ghost use Rattle.timeline.specs.Orders.{IsOpen, IsBehind, AreSlots, AreStuck, AreOrdered, Placed};

use crate::behind::{behind_open, is_open};
use crate::span::{SLOTS, Span};
use lab_plan::MOST_COMMANDS;
use std::alloc::{AllocError, Allocator};

/// Whether a slot is marked as left, and not as behind.
fn is_ready(left: &[bool], behind: &[bool], slot: usize) -> bool
    ensures yes { result ≡ true → IsOpen left.now slot × ¬ IsOpen behind.now slot }
    ensures no { result ≡ false → IsOpen left.now slot → IsOpen behind.now slot }
{
    is_open(left, slot) && !is_open(behind, slot)
}

/// The first of these.
fn first_ready(left: &[bool], behind: &[bool]) -> Option<usize>
    ensures none { result ≡ None → (y : ℕ) → IsOpen left.now y → IsOpen behind.now y }
    ensures some { IfSome result (λ y. IsOpen left.now y × ¬ IsOpen behind.now y) }
{
    for slot in 0..left.len() {
        if is_ready(left, behind, slot) {
            return Some(slot);
        }
    }
    None
}

/// A session that is left, of which no pair has one that is left before it.
fn ready<A: Allocator + Copy>(
    alloc: A,
    pairs: &[(usize, usize)],
    left: &[bool],
) -> Result<Option<usize>, AllocError>
    ensures none { IfOk result (λ found. found ≡ None → (y : ℕ) → IsOpen left.now y → IsBehind pairs.now left.now y) }
    ensures some { IfOk result (λ found. IfSome found (λ y. IsOpen left.now y × ¬ IsBehind pairs.now left.now y)) }
{
    let behind = behind_open(alloc, pairs, left)?;
    Ok(first_ready(left, &behind))
}

/// Whether one is left.
fn is_any(left: &[bool]) -> Option<usize>
    ensures { MatchOption result ((y : ℕ) → ¬ IsOpen left.now y) (λ y. IsOpen left.now y) }
{
    for slot in 0..left.len() {
        if left[slot] {
            return Some(slot);
        }
    }
    None
}

/// Gives columns from `start` on to a slot that is left.
fn place_slot<A: Allocator>(
    left: &mut Vec<bool, A>,
    spans: &mut Vec<Span, A>,
    slot: usize,
    start: u32,
)
    requires left { slot < length left.old.items }
    requires spans { slot < length spans.old.items }
    ensures left { left.new.items ≡ set left.old.items slot false }
    ensures spans { spans.new.items ≡ set spans.old.items slot (record { start = start; width = most_commands }) }
{
    let width = MOST_COMMANDS;
    spans[slot] = Span { start, width };
    left[slot] = false;
}

/// Gives columns to slots that are left, as long as one of them stands behind no other, and says how many columns there are.
fn place_all<A: Allocator + Copy>(
    alloc: A,
    pairs: &[(usize, usize)],
    left: &mut Vec<bool, A>,
    spans: &mut Vec<Span, A>,
) -> Result<u32, AllocError>
    requires pairs { AreSlots pairs.now }
    requires start { Placed pairs.now left.old.items spans.old.items 0 }
    ensures placed { IfOk result (λ columns. Placed pairs.now left.new.items spans.new.items columns) }
    ensures stuck { IfOk result (λ columns. (y : ℕ) → IsOpen left.new.items y → IsBehind pairs.now left.new.items y) }
{
    let mut columns = 0;
    'places: while let Some(slot) = ready(alloc, pairs, left)? {
        place_slot(left, spans, slot, columns);
        columns += MOST_COMMANDS;
    }
    Ok(columns)
}

/// Columns for all slots, each right of those that pairs have before it, and how many there are; or some slots of which pairs have each
/// behind another.
fn order<A: Allocator + Copy>(
    alloc: A,
    pairs: &[(usize, usize)],
) -> Result<Option<(Vec<Span, A>, u32)>, AllocError>
    requires { AreSlots pairs.now }
    ensures { IfOk result (λ found. MatchOption found ((marks : List Bool) × AreStuck pairs.now marks)
        (λ (spans, columns). AreOrdered pairs.now spans.items columns)) }
{
    let mut left = vec![in alloc; true; SLOTS]?;
    let width = MOST_COMMANDS;
    let mut spans = vec![in alloc; Span { start: 0, width }; SLOTS]?;
    let columns = place_all(alloc, pairs, &mut left, &mut spans)?;
    Ok(match is_any(&left) {
        Some(_) => None,
        None => Some((spans, columns)),
    })
}

/// Marks a slot that has no columns.
fn mark_bare(marks: &mut [bool], spans: &[Span], slot: usize) {
    if slot < marks.len() {
        marks[slot] = slot < spans.len() && spans[slot].width == 0;
    }
}

/// Marks on the slots of pairs that have no columns.
fn bare<A: Allocator + Copy>(
    alloc: A,
    pairs: &[(usize, usize)],
    spans: &[Span],
) -> Result<Vec<bool, A>, AllocError> {
    let mut marks = vec![in alloc; false; SLOTS]?;
    for &(x, y) in pairs {
        mark_bare(&mut marks, spans, x);
        mark_bare(&mut marks, spans, y);
    }
    Ok(marks)
}

/// Whether pairs have each of the marked slots behind another, and there is one.
fn are_stuck<A: Allocator + Copy>(
    alloc: A,
    pairs: &[(usize, usize)],
    marks: &[bool],
) -> Result<bool, AllocError>
    ensures { IfOk result (λ stuck. stuck ≡ true → AreStuck pairs.now marks.now) }
{
    if is_any(marks).is_none() {
        return Ok(false);
    }
    Ok(ready(alloc, pairs, marks)?.is_none())
}

/// As `order`, at once if the slots that `spans` leaves without columns are such.
pub(crate) fn order_beside<A: Allocator + Copy>(
    alloc: A,
    pairs: &[(usize, usize)],
    spans: &[Span],
) -> Result<Option<(Vec<Span, A>, u32)>, AllocError>
    requires { AreSlots pairs.now }
    ensures { IfOk result (λ found. MatchOption found ((marks : List Bool) × AreStuck pairs.now marks)
        (λ (spans, columns). AreOrdered pairs.now spans.items columns)) }
{
    let marks = bare(alloc, pairs, spans)?;
    if are_stuck(alloc, pairs, &marks)? {
        return Ok(None);
    }
    order(alloc, pairs)
}
