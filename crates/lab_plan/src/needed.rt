//! The bottles that a session needs.
ghost use Rattle.std.specs.Prelude.{◌<◌, ◌≤◌, length};
ghost use Rattle.lab_plan.specs.LabPlan.{edges, sessions};
ghost use Rattle.lab_plan.specs.NeededBottles.{AreNamed};

use crate::numbers::{EdgeNo, JobNo};
use crate::plan::Plan;
use std::alloc::Allocator;

impl<A: Allocator> Plan<A> {
    /// The bottles of an edge whose instruments a session names, as a set: bit k stands for bottle k. It takes one
    /// step for each bottle of the edge, however many commands the session has.
    pub fn needed_bottles(&self, job: JobNo, session: u32, edge: EdgeNo) -> u32
        requires is_job { job < length self.now.jobs }
        requires begun { 1 ≤ session }
        requires is_session { session ≤ length (sessions self.now job) }
        requires is_edge { edge < length (edges self.now) }
        ensures { AreNamed self.now job session edge result }
    {
        self.bottles_at(edge).within(self.needed(job, session))
    }
}
