//! What a worker meets before each turn.
use lab_plan::JobNo;

/// Every worker passes it before each turn of a job. The turns of a job are counted from 1 in each call of `threads`.
pub trait Gate: Sync {
    fn pass(&self, job: JobNo, turn: u64);

    /// Whether a worker may be held up there, as one that does work before a turn, or waits. If not, workers that wait for one another only
    /// lose time, and stop soon (`threads`). A hint: nothing that is promised depends on it.
    fn holds_up(&self) -> bool {
        true
    }
}

/// A gate that lets everybody through.
#[derive(Clone, Copy, PartialEq, Eq, Debug)]
pub struct NoGate;

impl Gate for NoGate {
    fn pass(&self, _job: JobNo, _turn: u64) {}

    fn holds_up(&self) -> bool {
        false
    }
}

/// A gate as one worker meets it.
/// Not shared by its type, so that the work of one thread can be promised by a trait.
pub trait Passage {
    fn pass(&self, job: JobNo, turn: u64);
}

/// The way through a gate.
#[derive(Drop)]
pub struct Through<'g, G> {
    pub gate: &'g G,
}

impl<G: Gate> Passage for Through<'_, G> {
    fn pass(&self, job: JobNo, turn: u64) {
        self.gate.pass(job, turn)
    }
}
