//! The two ends of an edge.
ghost use Rattle.std.specs.Prelude.{◌≡◌, ◌<◌, length};
ghost use Rattle.lab_plan.specs.LabPlan.{edges};
ghost use Rattle.legal_steps.specs.State.{neighbour as neighbour_of};

use lab_plan::{EdgeNo, JobNo, Plan};
use std::alloc::Allocator;

/// An end of an edge: that of its lower job (end 0) or of its higher job (end 1).
#[derive(Clone, Copy, PartialEq, Eq, Debug)]
pub enum End {
    /// The job with the lower number.
    Lower,
    /// The job with the higher number.
    Higher,
}

impl End {
    ghost use Rattle.legal_steps.specs.State.{IsOwn, end_of, opposite};
    ghost use Rattle.legal_steps.specs.Legal.{IsJob};

    /// The end at which the job sits, of one of its edges.
    pub fn of<A: Allocator>(plan: &Plan<A>, job: JobNo, edge: EdgeNo) -> End
        requires { IsOwn plan.now job edge }
        ensures end { result ≡ end_of plan.now job edge }
        ensures is_job { IsJob plan.now job }
    {
        let (lower, _) = plan.ends(edge);
        if lower == job {
            End::Lower
        } else {
            End::Higher
        }
    }

    /// The other end.
    pub fn other(self) -> End
        ensures { result ≡ opposite self }
    {
        match self {
            End::Lower => End::Higher,
            End::Higher => End::Lower,
        }
    }
}

/// The job at the other end of an edge of the job.
pub fn neighbour<A: Allocator>(plan: &Plan<A>, job: JobNo, edge: EdgeNo) -> JobNo
    requires { edge < length (edges plan.now) }
    ensures value { result ≡ neighbour_of plan.now job edge }
    ensures of_plan { result < length plan.now.jobs }
{
    let (lower, higher) = plan.ends(edge);
    if lower == job { higher } else { lower }
}
