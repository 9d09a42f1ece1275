//! What is known of a job that waits for a neighbour.
use lab_plan::{InstrumentNo, JobNo};

/// In how many rounds a job waited for an instrument that a neighbour kept, and in how many of these the neighbour held it.
#[derive(Clone, Copy, PartialEq, Eq, Debug)]
pub struct Block {
    pub job: JobNo,
    pub neighbour: JobNo,
    pub instrument: InstrumentNo,
    pub rounds: u32,
    pub held: u32,
}
