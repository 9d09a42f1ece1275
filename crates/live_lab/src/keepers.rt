//! Who keeps a job waiting.
ghost use Rattle.std.specs.Prelude.{◌≡◌, ℕ, ◌+◌, ◌≤◌, ◌<◌, ◌↔◌, IsTrue, length};
ghost use Rattle.lab_plan.specs.LabPlan.{edges, bottles, session_names};
ghost use Rattle.legal_steps.specs.State.{IsOwn, session, edge as edge_at, bottle_end as end_of_bottle};
ghost use Rattle.legal_steps.specs.Legal.{IsJob, Here, Needs, instrument_of};
ghost use Rattle.reasons.specs.Reasons.{Lacks, Keeps};
ghost use Rattle.live_lab.specs.Keepers.{IsKept, IsKeptAt, IsKeeper, IsUser, IsOne, IsHoldingOf, AreUsers, AreKeepers, AreKeepersAt};
ghost use Rattle.live_lab.specs.Sets.{AreJobs};

use crate::kinds::has;
use crate::lab::Lab;
use interleaving::World;
use lab_plan::{EdgeNo, InstrumentNo, JobNo, has_instrument};
use legal_steps::{End, bottle_end};
use std::alloc::Allocator;

/// Jobs that keep a job waiting for an instrument. Sets of jobs have bit k for job k.
#[derive(Clone, Copy, PartialEq, Eq, Debug)]
pub struct Keepers {
    /// The jobs that keep a bottle of the instrument that the job lacks.
    pub jobs: u32,
    /// Those of them that hold all instruments of their session.
    pub holding: u32,
}

/// Whether the job is in a session that names the instrument.
fn needs<A: Allocator>(world: &World<A>, job: JobNo, instrument: InstrumentNo) -> bool
    requires job { IsJob world.now.plan job }
    requires few { instrument < 64 }
    ensures { IsTrue result ↔ Needs world.now.plan world.now.state job instrument }
{
    let phase = world.job(job);
    if !phase.is_in_session() {
        return false;
    }
    has_instrument(world.plan().needs(job, phase.session), instrument)
}

/// Whether the job has the bottle.
fn is_here<A: Allocator>(world: &World<A>, job: JobNo, edge: EdgeNo, bottle: u32) -> bool
    requires own { IsOwn world.now.plan job edge }
    requires bottle { bottle < length (bottles world.now.plan edge) }
    ensures { IsTrue result ↔ Here world.now.plan job edge (end_of_bottle (edge_at world.now.state edge).bottles bottle) }
{
    let _ = world.plan().bottles(edge);
    bottle_end(world.edge(edge).bottles, bottle) == End::of(world.plan(), job, edge)
}

/// Whether the job lacks the bottle, which is the instrument's.
fn lacks<A: Allocator>(
    world: &World<A>,
    job: JobNo,
    edge: EdgeNo,
    bottle: u32,
    instrument: InstrumentNo,
) -> bool
    requires job { IsJob world.now.plan job }
    requires own { IsOwn world.now.plan job edge }
    requires bottle { bottle < length (bottles world.now.plan edge) }
    requires is { instrument_of world.now.plan edge bottle ≡ instrument }
    requires few { instrument < 64 }
    ensures { IsTrue result ↔ Lacks world.now.plan world.now.state job edge bottle }
{
    if is_here(world, job, edge, bottle) {
        return false;
    }
    needs(world, job, instrument)
}

/// Whether the job keeps the bottle, which is the instrument's.
fn keeps<A: Allocator>(
    world: &World<A>,
    job: JobNo,
    edge: EdgeNo,
    bottle: u32,
    instrument: InstrumentNo,
) -> bool
    requires job { IsJob world.now.plan job }
    requires own { IsOwn world.now.plan job edge }
    requires bottle { bottle < length (bottles world.now.plan edge) }
    requires is { instrument_of world.now.plan edge bottle ≡ instrument }
    requires few { instrument < 64 }
    ensures { IsTrue result ↔ Keeps world.now.plan world.now.state job edge bottle }
{
    if !is_here(world, job, edge, bottle) {
        return false;
    }
    if !needs(world, job, instrument) {
        return false;
    }
    if world.job(job).is_drinking() {
        return true;
    }
    world.edge(edge).fork == End::of(world.plan(), job, edge)
}

/// Whether the bottle is the instrument's.
fn is_of<A: Allocator>(
    world: &World<A>,
    edge: EdgeNo,
    bottle: u32,
    instrument: InstrumentNo,
) -> bool
    requires edge { edge < length (edges world.now.plan) }
    requires bottle { bottle < length (bottles world.now.plan edge) }
    ensures { IsTrue result ↔ (instrument_of world.now.plan edge bottle ≡ instrument) }
{
    world.plan().instrument_of(edge, bottle) == instrument
}

/// Whether the bottle is the instrument's, the first job lacks it and the second keeps it.
fn is_kept<A: Allocator>(
    world: &World<A>,
    job: JobNo,
    other: JobNo,
    instrument: InstrumentNo,
    edge: EdgeNo,
    bottle: u32,
) -> bool
    requires job { IsJob world.now.plan job }
    requires other { IsJob world.now.plan other }
    requires own { IsOwn world.now.plan job edge }
    requires across { IsOwn world.now.plan other edge }
    requires few { instrument < 64 }
    requires bottle { bottle < length (bottles world.now.plan edge) }
    ensures { IsTrue result ↔ IsKept world.now.plan world.now.state job instrument other edge bottle }
{
    if !is_of(world, edge, bottle, instrument) {
        return false;
    }
    if !lacks(world, job, edge, bottle, instrument) {
        return false;
    }
    keeps(world, other, edge, bottle, instrument)
}

/// Whether the second job keeps a bottle of the instrument on the edge that the first lacks. The edge is the first job's.
fn is_kept_at<A: Allocator>(
    world: &World<A>,
    job: JobNo,
    other: JobNo,
    instrument: InstrumentNo,
    edge: EdgeNo,
) -> bool
    requires job { IsJob world.now.plan job }
    requires other { IsJob world.now.plan other }
    requires own { IsOwn world.now.plan job edge }
    requires few { instrument < 64 }
    ensures { IsTrue result ↔ IsKeptAt world.now.plan world.now.state job instrument other edge }
{
    let (lower, higher) = world.plan().ends(edge);
    if lower != other && higher != other {
        return false;
    }
    for bottle in 0..world.plan().bottles(edge) {
        if is_kept(world, job, other, instrument, edge, bottle) {
            return true;
        }
    }
    false
}

/// Whether the second job keeps a bottle of the instrument that the first lacks.
fn is_keeper<A: Allocator>(
    world: &World<A>,
    job: JobNo,
    other: JobNo,
    instrument: InstrumentNo,
) -> bool
    requires job { IsJob world.now.plan job }
    requires other { IsJob world.now.plan other }
    requires few { instrument < 64 }
    ensures { IsTrue result ↔ IsKeeper world.now.plan world.now.state job instrument other }
{
    let own = world.plan().edges_of(job);
    for edge in own {
        if is_kept_at(world, job, other, instrument, *edge) {
            return true;
        }
    }
    false
}

/// Whether the next session of the first job names the instrument.
fn wants<A: Allocator>(world: &World<A>, job: JobNo, instrument: InstrumentNo) -> bool
    requires job { IsJob world.now.plan job }
    requires few { instrument < 64 }
    ensures { result ≡ session_names world.now.plan job (session world.now.state job + 1) instrument }
{
    let before = world.job(job).session;
    if world.plan().sessions(job) <= before {
        return false;
    }
    has_instrument(world.plan().needs(job, before + 1), instrument)
}

/// Whether the next session of the first job names the instrument, and the second is in one that does.
fn is_user<A: Allocator>(
    world: &World<A>,
    job: JobNo,
    other: JobNo,
    instrument: InstrumentNo,
) -> bool
    requires job { IsJob world.now.plan job }
    requires other { IsJob world.now.plan other }
    requires few { instrument < 64 }
    ensures { IsTrue result ↔ IsUser world.now.plan world.now.state job instrument other }
{
    wants(world, job, instrument) && needs(world, other, instrument)
}

/// Whether the second job keeps the first waiting for the instrument: one that waits outside as a user of it, any other as a keeper.
fn is_one<A: Allocator>(
    world: &World<A>,
    outside: bool,
    job: JobNo,
    other: JobNo,
    instrument: InstrumentNo,
) -> bool
    requires job { IsJob world.now.plan job }
    requires other { IsJob world.now.plan other }
    requires few { instrument < 64 }
    ensures { IsTrue result ↔ IsOne outside world.now.plan world.now.state job instrument other }
{
    if outside {
        is_user(world, job, other, instrument)
    } else {
        is_keeper(world, job, other, instrument)
    }
}

/// The jobs of which that is so.
fn those_of<A: Allocator>(
    world: &World<A>,
    outside: bool,
    job: JobNo,
    instrument: InstrumentNo,
) -> u32
    requires job { IsJob world.now.plan job }
    requires few { instrument < 64 }
    ensures { AreJobs world.now.plan result (IsOne outside world.now.plan world.now.state job instrument) }
{
    let mut set = 0u32;
    for other in 0..world.plan().jobs() {
        if is_one(world, outside, job, JobNo(other as u8), instrument) {
            set |= 1 << other;
        }
    }
    set
}

/// Whether the job is in the set, and holds all instruments of its session.
fn is_holding<A: Allocator>(world: &World<A>, jobs: u32, job: JobNo) -> bool
    requires job { IsJob world.now.plan job }
    requires few { job < 32 }
    ensures { IsTrue result ↔ IsHoldingOf jobs world.now.state job }
{
    has(jobs, job) && world.job(job).is_drinking()
}

/// Those of the set that hold all instruments of their session.
fn holding_of<A: Allocator>(world: &World<A>, jobs: u32) -> u32
    ensures { AreJobs world.now.plan result (IsHoldingOf jobs world.now.state) }
{
    let mut set = 0u32;
    for job in 0..world.plan().jobs() {
        if is_holding(world, jobs, JobNo(job as u8)) {
            set |= 1 << job;
        }
    }
    set
}

/// The jobs that keep the job waiting for the instrument.
fn keepers_of<A: Allocator>(world: &World<A>, job: JobNo, instrument: InstrumentNo) -> Keepers
    requires job { IsJob world.now.plan job }
    requires few { instrument < 64 }
    ensures { AreKeepers world.now job instrument result }
{
    let jobs = those_of(world, false, job, instrument);
    let holding = holding_of(world, jobs);
    Keepers { jobs, holding }
}

/// The jobs in a session that needs the instrument, if the next session of the job names it.
fn users_of<A: Allocator>(world: &World<A>, job: JobNo, instrument: InstrumentNo) -> Keepers
    requires job { IsJob world.now.plan job }
    requires few { instrument < 64 }
    ensures { AreUsers world.now job instrument result }
{
    let jobs = those_of(world, true, job, instrument);
    let holding = holding_of(world, jobs);
    Keepers { jobs, holding }
}

impl Lab {
    /// The jobs that keep a job waiting for an instrument, if there is such a job and such an instrument. Of a job that waits outside: the jobs in a
    /// session that needs the instrument.
    pub fn keepers(&self, job: u32, instrument: u32) -> Option<Keepers>
        ensures { AreKeepersAt self.now job instrument result }
    {
        let plan = self.world.plan();
        if plan.jobs() <= job as usize || plan.instruments() <= instrument as usize {
            return None;
        }
        let number = JobNo(job as u8);
        let instrument = InstrumentNo(instrument as u8);
        Some(if self.place_outside(number).is_some() {
            users_of(&self.world, number, instrument)
        } else {
            keepers_of(&self.world, number, instrument)
        })
    }
}
