//! Sets of jobs, a bit for each.
ghost use Rattle.std.specs.Prelude.{◌≡◌, ◌<◌, ◌↔◌, ℕ, IsTrue, length};
ghost use Rattle.lab_plan.specs.InstrumentSets.{holds};
ghost use Rattle.legal_steps.specs.State.{Has};
ghost use Rattle.legal_steps.specs.Legal.{IsJob};
ghost use Rattle.live_lab.specs.Sets.{AreJobs};
ghost use Rattle.live_lab.specs.Settles.{IsThrough};
ghost use Rattle.live_lab.specs.Kinds.{IsOf};

use crate::clock::{Clock, is_waiting, waited_in};
use interleaving::World;
use lab_plan::JobNo;
use late_thirst::next_of;
use legal_steps::Event;
use std::alloc::Allocator;

/// What is asked of a job.
#[derive(Clone, Copy, PartialEq, Eq, Debug)]
pub(crate) enum Kind {
    /// It is thirsty.
    Waits,
    /// It is waited for, and may begin its next session.
    Begins,
    /// It is thirsty, and the patience of its session is used up.
    IsImpatient,
    /// It holds.
    Holds,
    /// It is waited for, is in no session and has none left.
    NoneLeft,
}

/// Whether the set has the job.
pub(crate) fn has(set: u32, job: JobNo) -> bool
    requires { job < 32 }
    ensures { result ≡ holds set job }
{
    late_thirst::has(set, job.0 as usize)
}

/// Whether the job is in no session, and has none left.
pub(crate) fn is_through<A: Allocator>(world: &World<A>, job: JobNo) -> bool
    requires { IsJob world.now.plan job }
    ensures { IsTrue result ↔ IsThrough world.now.plan world.now.state job }
{
    let phase = world.job(job);
    !phase.is_in_session() && world.plan().sessions(job) <= phase.session
}

/// Whether it is so of a job.
fn is_of<A: Allocator>(
    world: &World<A>,
    clocks: &[Clock],
    waiting: u32,
    kind: Kind,
    job: JobNo,
) -> bool
    requires job { IsJob world.now.plan job }
    requires few { job < 32 }
    requires clocks { length clocks.now ≡ length world.now.plan.jobs }
    ensures { IsTrue result ↔ IsOf kind waiting clocks.now world.now job }
{
    match kind {
        Kind::Waits => is_waiting(world.job(job).drinking),
        Kind::Begins => has(waiting, job) && world.enabled(Event::Thirst(job)),
        Kind::IsImpatient => {
            let phase = world.job(job);
            phase.gives_up(
                world.plan(),
                job,
                waited_in(clocks[job.0 as usize], phase.session),
            )
        }
        Kind::Holds => world.job(job).is_drinking(),
        Kind::NoneLeft => has(waiting, job) && is_through(world, job),
    }
}

/// The same of a kind of which only jobs are that are waited for: no other is asked.
fn waited_for_of<A: Allocator>(world: &World<A>, clocks: &[Clock], waiting: u32, kind: Kind) -> u32
    requires clocks { length clocks.now ≡ length world.now.plan.jobs }
    requires only { (j : ℕ) → IsOf kind waiting clocks.now world.now j → Has waiting j }
    ensures { AreJobs world.now.plan result (IsOf kind waiting clocks.now world.now) }
{
    let jobs = world.plan().jobs();
    let mut set = 0u32;
    let mut job = next_of(waiting, 0, jobs);
    while job < jobs {
        if is_of(world, clocks, waiting, kind, JobNo(job as u8)) {
            set |= 1 << job;
        }
        job = next_of(waiting, job + 1, jobs);
    }
    set
}

/// The same of any kind: each job is asked.
fn all_of<A: Allocator>(world: &World<A>, clocks: &[Clock], waiting: u32, kind: Kind) -> u32
    requires { length clocks.now ≡ length world.now.plan.jobs }
    ensures { AreJobs world.now.plan result (IsOf kind waiting clocks.now world.now) }
{
    let mut set = 0u32;
    for job in 0..world.plan().jobs() {
        if is_of(world, clocks, waiting, kind, JobNo(job as u8)) {
            set |= 1 << job;
        }
    }
    set
}

/// The jobs of which it is so: bit k for job k.
pub(crate) fn jobs_of<A: Allocator>(
    world: &World<A>,
    clocks: &[Clock],
    waiting: u32,
    kind: Kind,
) -> u32
    requires { length clocks.now ≡ length world.now.plan.jobs }
    ensures { AreJobs world.now.plan result (IsOf kind waiting clocks.now world.now) }
{
    match kind {
        Kind::Begins => waited_for_of(world, clocks, waiting, Kind::Begins),
        Kind::NoneLeft => waited_for_of(world, clocks, waiting, Kind::NoneLeft),
        _ => all_of(world, clocks, waiting, kind),
    }
}
