//! A gate for tests that counts the turns of four jobs, and notes if one comes out of order.
#![tactic(auto)]

use lab_plan::JobNo;
use std::sync::atomic::{AtomicU64, Ordering};
use workers::Gate;

/// Counts the passes of each of four jobs, and notes if one isn't the next of its job, or not in the order of its worker: of two workers
/// the first drives jobs 0 and 2, the second jobs 1 and 3, the lower job first in each round.
#[derive(Drop)]
pub struct CountingGate {
    passes: [AtomicU64; 4],
    wrong: AtomicU64,
}

impl CountingGate {
    pub fn new() -> CountingGate {
        CountingGate {
            passes: [
                AtomicU64::new(0),
                AtomicU64::new(0),
                AtomicU64::new(0),
                AtomicU64::new(0),
            ],
            wrong: AtomicU64::new(0),
        }
    }

    /// How often the job passed; one past the fourth never does.
    pub fn passes(&self, job: u8) -> u64 {
        match self.passes.get(usize::from(job)) {
            Some(count) => count.load(Ordering::SeqCst),
            None => 0,
        }
    }

    /// Whether all passes came in order.
    pub fn is_in_order(&self) -> bool {
        self.wrong.load(Ordering::SeqCst) == 0
    }
}

impl Gate for CountingGate {
    fn pass(&self, job: JobNo, turn: u64) {
        let own = self.passes(job.0).wrapping_add(1);
        let other = self.passes(job.0 ^ 2);
        let expected = if job.0 < 2 { own.wrapping_sub(1) } else { own };
        if own != turn || other != expected {
            self.wrong.store(1, Ordering::SeqCst);
        }
        if let Some(count) = self.passes.get(usize::from(job.0)) {
            count.store(own, Ordering::SeqCst);
        }
    }
}
