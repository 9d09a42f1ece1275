//! Gates of the tests, for four jobs and two workers.
use lab_plan::JobNo;
use std::sync::atomic::{AtomicU64, Ordering};
use std::thread::yield_now;
use workers::Gate;

fn four() -> [AtomicU64; 4] {
    [
        AtomicU64::new(0),
        AtomicU64::new(0),
        AtomicU64::new(0),
        AtomicU64::new(0),
    ]
}

/// The number of a job; that of a job past the fourth is nought.
fn number_of(counts: &[AtomicU64; 4], job: u8) -> u64 {
    match counts.get(job as usize) {
        Some(count) => count.load(Ordering::SeqCst),
        None => 0,
    }
}

fn set(counts: &[AtomicU64; 4], job: u8, number: u64) {
    if let Some(count) = counts.get(job as usize) {
        count.store(number, Ordering::SeqCst);
    }
}

/// How often a job looks for the one that it meets, before it gives up.
const TRIES: u64 = 20_000_000;

/// A job, and a turn before which it waits; the job that it waits for, and the turn which that has to come to.
pub(crate) type Wait = (u8, u64, u8, u64);

/// Jobs of different workers wait for one another: in the first turn 0 and 1, and 2 and 3; in the second 0 and 3; in the third 1 and 2. So
/// the desks are driven on two threads, and neither 0 nor 2 on the same as 1 or 3.
pub(crate) const ALL_MEET: [Wait; 8] = [
    (0, 1, 1, 1),
    (1, 1, 0, 1),
    (2, 1, 3, 1),
    (3, 1, 2, 1),
    (0, 2, 3, 2),
    (3, 2, 0, 2),
    (1, 3, 2, 3),
    (2, 3, 1, 3),
];

/// Nobody waits. The gate may hold workers up all the same, for all that is known of it.
pub(crate) const NOBODY_WAITS: [Wait; 0] = [];

/// Before their first turns job 0 and job 1 wait for each other.
pub(crate) const TWO_MEET: [Wait; 2] = [(0, 1, 1, 1), (1, 1, 0, 1)];

/// Job 1 takes three turns before the first of job 0, which comes before its fourth.
pub(crate) const THREE_FIRST: [Wait; 2] = [(0, 1, 1, 4), (1, 4, 0, 2)];

/// Both jobs of two workers begin, and then job 0 does nothing for job 1, however long that waits, until it comes to its fortieth turn.
pub(crate) const FORTIETH: [Wait; 3] = [(0, 1, 1, 1), (1, 1, 0, 1), (0, 3, 1, 40)];

/// Lets jobs wait for one another before their turns.
#[derive(Drop)]
pub(crate) struct Meeting {
    waits: &'static [Wait],
    turns: [AtomicU64; 4],
    missed: AtomicU64,
}

impl Meeting {
    pub(crate) fn new(waits: &'static [Wait]) -> Meeting {
        Meeting {
            waits,
            turns: four(),
            missed: AtomicU64::new(0),
        }
    }

    fn gave_up(&self) -> bool {
        self.missed.load(Ordering::SeqCst) != 0
    }

    /// Whether all met: each turn that was waited for came, and nobody gave up.
    pub(crate) fn all_met(&self) -> bool {
        for (_, _, other, until) in self.waits {
            if number_of(&self.turns, *other) < *until {
                return false;
            }
        }
        !self.gave_up()
    }

    fn wait_for(&self, other: u8, turn: u64) {
        for _ in 0..TRIES {
            if number_of(&self.turns, other) >= turn || self.gave_up() {
                return;
            }
            yield_now();
        }
        self.missed.store(1, Ordering::SeqCst);
    }
}

impl Gate for Meeting {
    fn pass(&self, job: JobNo, turn: u64) {
        set(&self.turns, job.0, turn);
        for (who, when, other, until) in self.waits {
            if *who == job.0 && *when == turn {
                self.wait_for(*other, *until);
            }
        }
    }
}
