//! The bell: how often it was rung, and how many may sleep.
ghost use Rattle.std.specs.Prelude.{◌≡◌};

use std::sync::Wait;
use std::sync::atomic::{AtomicU64, Ordering};
use std::time::Duration;

/// The longest sleep of a bell, in milliseconds. A ring is never missed, see `Bell`; this is for what changes without one.
const LONGEST: u64 = 5;

/// A bell that threads share.
///
/// A thread that may sleep (a *listener*) does four things, in this order:
/// 1. it says so: `listeners` goes up;
/// 2. it reads `rings`;
/// 3. it looks once more whether there is anything to do;
/// 4. only if there isn't, it sleeps, and only while `rings` is as it was read.
///
/// A thread that did something for which others may wait (a *ringer*) does three:
/// 1. it does it;
/// 2. it reads `listeners`;
/// 3. only if that isn't 0, `rings` goes up and all sleepers are woken.
///
/// So no ring is missed. All these steps are sequentially consistent, so they have one order. Either what the ringer did comes before
/// the listener's last look, which then sees it. Or the last look comes first: then so does the listener's step 1, and the ringer reads
/// that somebody listens and rings, after the listener read `rings`. The listener's sleep then finds another number and doesn't begin, or
/// has begun and is woken: the system compares the number and puts the thread to sleep in one step.
/// Two numbers, because a ringer mostly finds that nobody listens. That costs it one load of a word that nobody writes meanwhile.
#[derive(Drop)]
pub struct Bell {
    rings: AtomicU64,
    listeners: AtomicU64,
    /// The longest sleep, in milliseconds.
    longest: u64,
}

impl Bell {
    /// A bell to which nobody listens yet. No sleep by it is longer than 5 milliseconds.
    pub fn new() -> Bell
        ensures { result.longest ≡ LONGEST }
    {
        Bell::with_longest(LONGEST)
    }

    /// The same with another longest sleep, in milliseconds. With a long one a thread that isn't woken is seen to sleep on.
    pub fn with_longest(millis: u64) -> Bell
        ensures { result.longest ≡ millis }
    {
        Bell {
            rings: AtomicU64::new(0),
            listeners: AtomicU64::new(0),
            longest: millis,
        }
    }

    /// How many listen now, and so may sleep. While it is none, a ring costs one load.
    pub fn listeners(&self) -> u64 {
        self.listeners.load(Ordering::SeqCst)
    }

    /// Wakes all that sleep by this bell. Whoever did something for which others may wait rings after it.
    pub fn ring(&self) {
        if self.listeners() > 0 {
            self.rings.fetch_add(1, Ordering::SeqCst);
            self.rings.wake_all();
        }
    }

    /// One more listens. Answers how often the bell was rung.
    pub(crate) fn listen(&self) -> u64 {
        // In this order: a ring that comes between the two is read here, and one that comes later ends the sleep.
        self.listeners.fetch_add(1, Ordering::SeqCst);
        self.rings.load(Ordering::SeqCst)
    }

    /// One fewer listens.
    pub(crate) fn leave(&self) {
        self.listeners.fetch_sub(1, Ordering::SeqCst);
    }

    /// Sleeps while the bell is as it was heard, and no longer than its longest sleep. Answers whether it was rung.
    pub(crate) fn sleep<R: Wait>(&self, rt: &R, heard: u64) -> bool {
        // The system compares 32 bits. Should the bell be rung 2^32 times between the two looks, the sleep ends by its limit.
        let low = (heard & 0xffff_ffff) as u32;
        self.rings
            .park_timeout(rt, low, Duration::from_millis(self.longest));
        self.rings.load(Ordering::SeqCst) != heard
    }
}
