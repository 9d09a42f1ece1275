//! What the threads share besides the bench: how far the work is, and who holds what.
use lab_plan::JobNo;
use std::sync::atomic::{AtomicU32, AtomicU64, Ordering};

/// One instrument, as its holders count it.
#[derive(Drop)]
pub(crate) struct Hold {
    /// How many hold it now: each holder adds 1 once it holds it, and takes it off before it lets it go.
    holders: AtomicU32,
    times: AtomicU32,
    clashes: AtomicU32,
}

impl Hold {
    fn new() -> Hold {
        Hold {
            holders: AtomicU32::new(0),
            times: AtomicU32::new(0),
            clashes: AtomicU32::new(0),
        }
    }

    fn take(&self) {
        if self.holders.fetch_add(1, Ordering::SeqCst) != 0 {
            self.clashes.fetch_add(1, Ordering::SeqCst);
        }
        self.times.fetch_add(1, Ordering::SeqCst);
    }

    fn put_back(&self) {
        self.holders.fetch_sub(1, Ordering::SeqCst);
    }
}

/// What the four owners share.
#[derive(Drop)]
pub(crate) struct Shop {
    /// Samples that the robot has brought, and that the stations have weighed.
    brought: AtomicU32,
    weighed: AtomicU32,
    holds: [Hold; 4],
    waited: [AtomicU64; 4],
}

/// The instruments of a job's session, by their numbers in the plan.
fn needs(job: JobNo, session: u32) -> &'static [usize] {
    match (job.0, session) {
        (0, 1) => &[0, 1],
        (0, _) => &[0, 2],
        (1, _) => &[1, 3],
        (2, _) => &[2, 3],
        _ => &[1, 2, 3],
    }
}

impl Shop {
    pub(crate) fn new() -> Shop {
        Shop {
            brought: AtomicU32::new(0),
            weighed: AtomicU32::new(0),
            holds: [Hold::new(), Hold::new(), Hold::new(), Hold::new()],
            waited: [
                AtomicU64::new(0),
                AtomicU64::new(0),
                AtomicU64::new(0),
                AtomicU64::new(0),
            ],
        }
    }

    /// Whether the job has work: the robot always, a station once its sample was brought, the inspector once both are weighed.
    pub(crate) fn has_work(&self, job: JobNo) -> bool {
        match job.0 {
            0 => true,
            1 => self.brought.load(Ordering::SeqCst) >= 1,
            2 => self.brought.load(Ordering::SeqCst) >= 2,
            _ => self.weighed.load(Ordering::SeqCst) >= 2,
        }
    }

    /// The job's session is over.
    pub(crate) fn has_done(&self, job: JobNo) {
        match job.0 {
            0 => self.brought.fetch_add(1, Ordering::SeqCst),
            1 | 2 => self.weighed.fetch_add(1, Ordering::SeqCst),
            _ => 0,
        };
    }

    /// The job holds the instruments of this session.
    pub(crate) fn take(&self, job: JobNo, session: u32) {
        for number in needs(job, session) {
            if let Some(hold) = self.holds.get(*number) {
                hold.take();
            }
        }
    }

    /// The job is about to let them go.
    pub(crate) fn put_back(&self, job: JobNo, session: u32) {
        for number in needs(job, session) {
            if let Some(hold) = self.holds.get(*number) {
                hold.put_back();
            }
        }
    }

    pub(crate) fn add_waited(&self, job: JobNo, turns: u64) {
        if let Some(waited) = self.waited.get(usize::from(job.0)) {
            waited.fetch_add(turns, Ordering::SeqCst);
        }
    }

    pub(crate) fn turns_waited(&self, job: JobNo) -> u64 {
        match self.waited.get(usize::from(job.0)) {
            Some(waited) => waited.load(Ordering::SeqCst),
            None => 0,
        }
    }

    pub(crate) fn times_held(&self, number: usize) -> u32 {
        match self.holds.get(number) {
            Some(hold) => hold.times.load(Ordering::SeqCst),
            None => 0,
        }
    }

    pub(crate) fn clashes(&self, number: usize) -> u32 {
        match self.holds.get(number) {
            Some(hold) => hold.clashes.load(Ordering::SeqCst),
            None => 0,
        }
    }
}
