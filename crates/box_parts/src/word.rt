//! A word of one owner, changed by a step of the machine that no other can come between.
ghost use Rattle.std.specs.Prelude.{◌≡◌, ◌==◌};
ghost use prog.Atomic.{either};

use std::marker::Brand;

/// The word becomes `to` if it was `from`. Answers what it was. Whoever reaches the word against the rules meets one step, and not a read and then a write.
pub fn exchange(word: &mut u64, from: u64, to: u64) -> u64
    ensures was { result ≡ word.old }
    ensures is { word.new ≡ either (word.old == from) to word.old }
{
    unsafe { atomic_table::exchange::<Brand>(word as *mut u64 as *const u64, from, to) }
}
