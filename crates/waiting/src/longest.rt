//! The longest wait of a run.
ghost use Rattle.std.specs.Prelude.{◌≡◌, ◌≢◌, ◌<◌, ◌≤◌, length};
ghost use Rattle.waiting.specs.Text.{longest_below};

use crate::run::RoundsRun;
use crate::waits::{Longest, longest_after};
use lab_plan::JobNo;
use std::alloc::Allocator;

/// The first of the longest of the sessions of the first jobs, this many.
pub(crate) fn longest_below<A: Allocator>(run: &RoundsRun<A>, jobs: usize) -> Longest
    requires few { jobs ≤ 32 }
    requires inside { jobs ≤ length run.now.jobs }
    ensures longest { result ≡ longest_below run.now jobs }
    ensures job { result.wait ≢ 0 → result.job < jobs }
{
    let mut best = Longest {
        wait: 0,
        job: JobNo(0),
        session: 0,
    };
    for job in 0..jobs {
        let number = JobNo(job as u8);
        best = longest_after(run.rounds(), number, best, 1, run.sessions(number));
    }
    best
}
