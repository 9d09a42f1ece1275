//! How many of each class hold, and what all have that hold.
ghost use Rattle.std.specs.Prelude.{◌≡◌, ℕ, ◌+◌, ◌<◌, ◌≤◌, true, false, length, slice_index_or};
ghost use Rattle.std.specs.Int.Bits.{bit_or};
ghost use Rattle.bay_book.specs.Asks.{is_holding};
ghost use Rattle.bay_book.specs.Moments.{common};
ghost use Rattle.bay_book.specs.Counted.{own, one_of};

use crate::ask::Ask;
use crate::making::is_holding;
use crate::moments::common;

/// What it has, if it holds.
fn own(ask: Ask) -> u64
    ensures { result ≡ own ask }
{
    if is_holding(ask.stage) { ask.needs } else { 0 }
}

/// This one holds, too; and there are so many asks.
#[tactic(auto, using(crate::proofs::Counted::one_up, crate::proofs::Counted::one_past))]
pub(crate) fn count_up(taken: &mut [usize; 32], ask: Ask, len: usize)
    requires long { length taken.old ≡ 32 }
    requires holds { is_holding ask.stage ≡ true }
    requires room { ask.class < 32 → slice_index_or taken.old ask.class 0 < len }
    ensures each { (k : ℕ) → k < 32 → slice_index_or taken.new k 0 ≡ slice_index_or taken.old k 0 + one_of k ask }
    ensures long { length taken.new ≡ length taken.old }
{
    if 32 <= ask.class {
        return;
    }
    let _ = len;
    taken[ask.class as usize] += 1;
}

/// If this one holds, it isn't counted any more.
#[tactic(auto, using(crate::proofs::Counted::one_down, crate::proofs::Counted::one_past, crate::proofs::Counted::one_none))]
pub(crate) fn count_down(taken: &mut [usize; 32], ask: Ask)
    requires long { length taken.old ≡ 32 }
    requires some { is_holding ask.stage ≡ true → ask.class < 32 → 0 < slice_index_or taken.old ask.class 0 }
    ensures each { (k : ℕ) → k < 32 → slice_index_or taken.new k 0 + one_of k ask ≡ slice_index_or taken.old k 0 }
    ensures long { length taken.new ≡ length taken.old }
{
    if !is_holding(ask.stage) {
        return;
    }
    if 32 <= ask.class {
        return;
    }
    taken[ask.class as usize] -= 1;
}

/// What is in use, if one holds this, too; and whether that is sure.
pub(crate) fn with_needs(used: u64, sure: bool, needs: u64) -> (u64, bool)
    ensures was { result.1 ≡ true → sure ≡ true }
    ensures free { result.1 ≡ true → common needs used ≡ false }
    ensures all { result.1 ≡ true → result.0 ≡ bit_or used needs }
{
    if sure {
        if !common(needs, used) {
            return (used | needs, true);
        }
    }
    (used, false)
}

/// What is in use, if this one holds no more.
pub(crate) fn without_own(used: u64, sure: bool, ask: Ask) -> u64
    requires { sure ≡ true → own ask ≤ used }
    ensures { sure ≡ true → result + own ask ≡ used }
{
    if sure { used - own(ask) } else { used }
}
