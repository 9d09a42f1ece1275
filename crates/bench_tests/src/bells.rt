//! The bell: who was rung before it sleeps doesn't sleep, who sleeps is woken, and no ring is missed.
use crate::rows::check;
use bell::{Bell, Listener};
use std::process::Abort;
use std::rt::Clock;
use std::sync::Wait;
use std::sync::atomic::{AtomicU64, Ordering};
use std::test::Fail;
use std::thread::{Threads, join, sleep, yield_now};
use std::time::{Duration, Instant};

/// What is done: by a listener, or by anybody.
#[derive(Clone, Copy, Debug)]
enum Call {
    /// The listener waits as long as one sleep: it says that it may sleep, and the next time it sleeps.
    Waits,
    /// The listener did something.
    Acts,
    Leaves,
    /// The bell is rung.
    Rings,
}

const A: bool = true;

const B: bool = false;

/// Which of two listeners it is, and what is answered; a call without an answer says yes.
const CALLS: [(bool, Call, bool); 24] = [
    // nobody rings
    (A, Call::Waits, true),
    (A, Call::Waits, false),
    // a ring that comes before is not heard later
    (B, Call::Acts, true),
    (A, Call::Waits, true),
    (A, Call::Waits, false),
    (A, Call::Waits, true),
    (B, Call::Acts, true),
    (A, Call::Waits, true),
    // one ring for both
    (A, Call::Waits, true),
    (B, Call::Waits, true),
    (A, Call::Rings, true),
    (A, Call::Waits, true),
    (B, Call::Waits, true),
    // b is heard, however often a leaves
    (A, Call::Waits, true),
    (B, Call::Waits, true),
    (A, Call::Leaves, true),
    (A, Call::Leaves, true),
    (A, Call::Acts, true),
    (B, Call::Waits, true),
    // who acts doesn't listen any more, and doesn't ring for itself
    (A, Call::Waits, true),
    (A, Call::Acts, true),
    (A, Call::Waits, true),
    (A, Call::Waits, false),
    (B, Call::Leaves, true),
];

fn answer<R: Wait>(rt: &R, bell: &Bell, listener: &mut Listener<'_>, call: Call) -> bool {
    match call {
        Call::Waits => return listener.outlasts(rt, 1),
        Call::Acts => listener.acted(),
        Call::Leaves => listener.leave(),
        Call::Rings => bell.ring(),
    }
    true
}

#[test]
fn listeners_by_hand(rt: HostRuntime) {
    let bell = Bell::new();
    let mut a = Listener::new(&bell);
    let mut b = Listener::new(&bell);
    for (row, (who, call, wanted)) in CALLS.into_iter().enumerate() {
        let came = if who {
            answer(&rt, &bell, &mut a, call)
        } else {
            answer(&rt, &bell, &mut b, call)
        };
        assert!(rt; came == wanted, "row {row}: {call:?}");
    }
}

/// A listener that is dropped while it may sleep listens no more: nobody rings for it.
#[test]
fn dropped_while_it_listens(rt: HostRuntime) {
    let bell = Bell::new();
    let mut listener = Listener::new(&bell);
    check(&rt, 1, listener.outlasts(&rt, 1), true);
    check(&rt, 2, bell.listeners(), 1);
    drop(listener);
    check(&rt, 3, bell.listeners(), 0);
}

const ROUNDS: u64 = 1000;

/// So many times a listener is rung between saying that it may sleep and its sleep. Answers whether it was told so each time.
fn rung_each_time<R: Wait>(rt: &R, rounds: u64) -> bool {
    let bell = Bell::new();
    let mut listener = Listener::new(&bell);
    let mut told = true;
    for _ in 0..rounds {
        told &= listener.outlasts(rt, 1);
        bell.ring();
        told &= listener.outlasts(rt, 1);
    }
    told
}

/// As many sleeps would take five seconds.
#[test]
fn rung_before_it_sleeps(rt: HostRuntime) -> Result<(), Fail> {
    let begun = Instant::now(&rt)?;
    assert!(rt; rung_each_time(&rt, ROUNDS));
    let took = begun.elapsed(&rt)?;
    assert!(rt; took < Duration::from_millis(2500), "{took:?}");
    Ok(())
}

/// Idle rounds in which a listener only yields.
const YIELDS: u32 = 200;

/// Rung after the round in which it says that it may sleep, and so it begins to count again.
fn idles<R: Wait>(rt: &R, bell: &Bell, listener: &mut Listener<'_>) {
    for _ in 0..YIELDS + 1 {
        listener.idled(rt);
    }
    bell.ring();
    listener.idled(rt);
}

/// Three times: idle rounds, the last of which says that it may sleep, a ring, and one more.
#[test]
fn idles_before_it_listens(rt: HostRuntime) {
    let bell = Bell::new();
    let mut listener = Listener::new(&bell);
    for _ in 0..3 {
        idles(&rt, &bell, &mut listener);
    }
    // It has just left, so it says that it may sleep, and nobody rings.
    check(&rt, 1, listener.outlasts(&rt, 1), true);
    check(&rt, 2, listener.outlasts(&rt, 1), false);
}

/// A ring is never so many sleeps late: ten seconds.
const SLEEPS: u32 = 2000;

/// How often a thread looks whether another has come to its round, before it gives up.
const TRIES: u64 = 20_000_000;

/// How far each of two threads is, which one bell serves. Each waits for the other before it goes on.
#[derive(Drop)]
struct Rounds {
    bell: Bell,
    /// The round in which the listener has said that it may sleep.
    listens: AtomicU64,
    /// The round of which the ringer has done what the listener waits for.
    done: AtomicU64,
    /// The round of which the listener has seen this.
    seen: AtomicU64,
}

impl Rounds {
    fn new() -> Rounds {
        Rounds {
            bell: Bell::new(),
            listens: AtomicU64::new(0),
            done: AtomicU64::new(0),
            seen: AtomicU64::new(0),
        }
    }

    /// The listener's part of a round: the ringer may begin once it listens. Answers no if it slept through.
    fn is_heard<R: Wait>(&self, rt: &R, listener: &mut Listener<'_>, round: u64) -> bool {
        listener.outlasts(rt, SLEEPS);
        self.listens.store(round, Ordering::SeqCst);
        // The ring of the round before may come as late as this, so it isn't always the first that counts.
        for _ in 0..ROUNDS {
            if self.done.load(Ordering::SeqCst) == round {
                listener.leave();
                self.seen.store(round, Ordering::SeqCst);
                return true;
            }
            if !listener.outlasts(rt, SLEEPS) {
                return false;
            }
        }
        false
    }

    /// In how many of so many rounds the listener was rung: all up to the first that it slept through.
    fn hears<R: Wait>(&self, rt: &R, rounds: u64) -> u64 {
        let mut listener = Listener::new(&self.bell);
        for round in 0..rounds {
            if !self.is_heard(rt, &mut listener, round + 1) {
                return round;
            }
        }
        rounds
    }

    /// Does what the listener waits for in this round, and rings.
    fn act(&self, ringer: &mut Listener<'_>, round: u64) {
        self.done.store(round, Ordering::SeqCst);
        ringer.acted();
    }

    /// The ringer's part: it acts as soon as the listener may sleep, so that now the one, now the other is faster.
    fn rings(&self, rounds: u64) {
        let mut ringer = Listener::new(&self.bell);
        for round in 0..rounds {
            if !comes_to(&self.listens, round + 1) {
                return;
            }
            self.act(&mut ringer, round + 1);
        }
    }

    /// The time from what was done to the listener that saw it, in a round in which the listener has slept a while.
    fn wakes_after<C: Clock>(
        &self,
        clock: &C,
        ringer: &mut Listener<'_>,
        round: u64,
    ) -> Option<Duration> {
        if !comes_to(&self.listens, round) {
            return None;
        }
        sleep(clock, Duration::from_millis(1));
        let begun = Instant::now(clock).ok()?;
        self.act(ringer, round);
        if !comes_to(&self.seen, round) {
            return None;
        }
        begun.elapsed(clock).ok()
    }

    /// In how many of so many rounds the listener was woken at once.
    fn wakes<C: Clock>(&self, clock: &C, rounds: u64) -> u64 {
        let mut ringer = Listener::new(&self.bell);
        let mut quick = 0u64;
        for round in 0..rounds {
            match self.wakes_after(clock, &mut ringer, round + 1) {
                Some(time) => {
                    if time < Duration::from_millis(3) {
                        quick = quick.saturating_add(1);
                    }
                }
                None => return quick,
            }
        }
        quick
    }
}

/// Whether the other thread has come to this round, after a while.
fn comes_to(other: &AtomicU64, round: u64) -> bool {
    for _ in 0..TRIES {
        if other.load(Ordering::SeqCst) >= round {
            return true;
        }
        yield_now();
    }
    false
}

fn misses_none<R: Threads + Wait + Abort + Sync>(rt: &R) {
    let rounds = Rounds::new();
    let (heard, ()) = join(rt, || rounds.hears(rt, ROUNDS), || rounds.rings(ROUNDS));
    assert!(rt; heard == ROUNDS, "round {heard} was the last heard");
}

/// A ring comes right before the listener's last look, or right after it.
#[test]
fn no_ring_is_missed(rt: HostRuntime) {
    misses_none(&rt);
}

const NAPS: u64 = 100;

fn wakes_sleepers<R: Threads + Wait + Abort + Clock + Sync>(rt: &R) {
    let rounds = Rounds::new();
    let (heard, quick) = join(rt, || rounds.hears(rt, NAPS), || rounds.wakes(rt, NAPS));
    assert!(rt; heard == NAPS, "round {heard} was the last heard");
    assert!(rt; quick >= NAPS / 10, "{quick} were woken at once");
}

/// Who isn't woken sleeps for five milliseconds, four of them after the ring, so no time is short. That a tenth is short leaves room for a
/// host that takes its time to run the sleeper.
#[test]
fn sleeper_is_woken(rt: HostRuntime) {
    wakes_sleepers(&rt);
}
