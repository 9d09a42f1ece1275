//! Sets of jobs, a bit for each.
ghost use Rattle.std.specs.Prelude.{◌≡◌, ◌<◌, ◌≤◌, ℕ, true, false};
ghost use Rattle.lab_plan.specs.InstrumentSets.{holds};

/// Whether the set has the job.
#[tactic(auto, using(lab_plan::proofs::Bits::holds_is))]
pub fn has(set: u32, job: usize) -> bool
    requires { job < 32 }
    ensures { result ≡ holds set job }
{
    set >> job & 1 == 1
}

/// The first job of the set from this one on, or the end if there is none in front of it.
pub fn next_of(set: u32, from: usize, end: usize) -> usize
    requires inside { from ≤ end }
    requires few { end ≤ 32 }
    ensures low { from ≤ result }
    ensures high { result ≤ end }
    ensures passed { (k : ℕ) → from ≤ k → k < result → holds set k ≡ false }
    ensures found { result < end → holds set result ≡ true }
{
    let rest = u64::from(set) >> from;
    (from + rest.trailing_zeros() as usize).min(end)
}
