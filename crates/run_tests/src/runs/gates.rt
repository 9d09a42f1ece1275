//! Gates of runs by threads, for scripts of at most four jobs.
use crossbeam_utils::atomic::AtomicCell;
use lab_plan::JobNo;
use std::thread::yield_now;
use workers::Gate;

/// How often a worker looks for the flag of the other, before it notes that it gave up.
const LOOKS: u64 = 100_000_000;

/// Before their first turns job 0 and job 1 each set a flag of their own, and wait for the other's.
#[derive(Drop)]
pub(crate) struct Flags {
    set: [AtomicCell<bool>; 2],
    given_up: AtomicCell<bool>,
}

impl Flags {
    pub(crate) fn new() -> Flags {
        Flags {
            set: [AtomicCell::new(false), AtomicCell::new(false)],
            given_up: AtomicCell::new(false),
        }
    }

    /// Whether both flags are set, and nobody gave up.
    pub(crate) fn both_saw(&self) -> bool {
        self.set[0].load() && self.set[1].load() && !self.given_up.load()
    }

    fn meet(&self, own: usize, other: usize) {
        if let (Some(own), Some(other)) = (self.set.get(own), self.set.get(other)) {
            own.store(true);
            for _ in 0..LOOKS {
                if other.load() {
                    return;
                }
                yield_now();
            }
            self.given_up.store(true);
        }
    }
}

impl Gate for Flags {
    fn pass(&self, job: JobNo, turn: u64) {
        match (job.0, turn) {
            (0, 1) => self.meet(0, 1),
            (1, 1) => self.meet(1, 0),
            _ => (),
        }
    }
}

/// This many first turns of three jobs are taken abreast.
const ABREAST: u64 = 8;

/// Before each of their first turns three jobs wait for one another, so none of them may stop, or be driven on the thread of another, while
/// it has nothing to do.
#[derive(Drop)]
pub(crate) struct Abreast {
    turns: [AtomicCell<u64>; 3],
    given_up: AtomicCell<bool>,
}

impl Abreast {
    pub(crate) fn new() -> Abreast {
        Abreast {
            turns: [AtomicCell::new(0), AtomicCell::new(0), AtomicCell::new(0)],
            given_up: AtomicCell::new(false),
        }
    }

    /// Whether all took these turns, and nobody gave up.
    pub(crate) fn all_met(&self) -> bool {
        self.turns.iter().all(|turn| turn.load() >= ABREAST) && !self.given_up.load()
    }

    fn wait_for(&self, other: &AtomicCell<u64>, turn: u64) {
        for _ in 0..LOOKS {
            if other.load() >= turn || self.given_up.load() {
                return;
            }
            yield_now();
        }
        self.given_up.store(true);
    }
}

impl Gate for Abreast {
    fn pass(&self, job: JobNo, turn: u64) {
        if turn > ABREAST {
            return;
        }
        if let Some(own) = self.turns.get(usize::from(job.0)) {
            own.store(turn);
        }
        for other in &self.turns {
            self.wait_for(other, turn);
        }
    }
}
