//! What somebody in line waits for.
ghost use Rattle.std.specs.Prelude.{◌≡◌, ◌<◌, true};
ghost use Rattle.bay_line.specs.Wishes.{is_ready, is_kept, is_late, passes, passed_by, passed_most};

/// A set of instruments, and the ask that wants it. An ask that takes one of several sets has several wishes, which stand next to one another.
#[derive(Clone, Copy)]
pub struct Wish {
    /// The number of the ask.
    pub ask: u64,
    /// The instruments: bit i for instrument i.
    pub needs: u64,
    /// The classes of places that it may take: bit k for class k.
    pub classes: u32,
    /// Until when it is to be let in.
    pub deadline: Option<u64>,
    /// How often it was passed by.
    pub passed: u32,
}

/// Whether a place is free for it.
pub(crate) fn is_ready(wish: Wish, free: u32) -> bool
    ensures { result ≡ is_ready free wish }
{
    wish.classes & free != 0
}

/// Whether its time is over.
pub(crate) fn is_late(wish: Wish, now: u64) -> bool
    ensures { result ≡ is_late now wish }
{
    match wish.deadline {
        None => false,
        Some(end) => end <= now,
    }
}

/// Whether its instruments are kept for it from those behind it.
pub(crate) fn is_kept(wish: Wish, most: u32, free: u32) -> bool
    ensures { result ≡ is_kept most free wish }
{
    is_ready(wish, free) && most <= wish.passed
}

/// Whether one with these needs goes before it.
fn passes(wish: Wish, free: u32, needs: u64) -> bool
    ensures { result ≡ passes free needs wish }
{
    is_ready(wish, free) && wish.needs & needs != 0
}

/// The same wish, after one with these needs was let in. Who was passed by as often as may be isn't counted any further.
pub(crate) fn passed_by(wish: Wish, most: u32, free: u32, needs: u64) -> Wish
    ensures { result ≡ passed_by most free needs wish }
{
    if passes(wish, free, needs) && wish.passed < most {
        Wish {
            ask: wish.ask,
            needs: wish.needs,
            classes: wish.classes,
            deadline: wish.deadline,
            passed: wish.passed + 1,
        }
    } else {
        wish
    }
}

/// The same wish, as if it was passed by as often as may be.
pub(crate) fn passed_most(wish: Wish, most: u32) -> Wish
    ensures { result ≡ passed_most most wish }
{
    Wish {
        ask: wish.ask,
        needs: wish.needs,
        classes: wish.classes,
        deadline: wish.deadline,
        passed: most,
    }
}
