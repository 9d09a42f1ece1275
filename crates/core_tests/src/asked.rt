//! The readers of a plan, each asked once the plan is seen to have what it is asked for.
ghost use Rattle.std.specs.Prelude.{◌≤◌, ◌<◌, length};
ghost use Rattle.lab_plan.specs.LabPlan.{edges, sessions};

use lab_plan::{EdgeNo, InstrumentNo, JobNo, Place, Plan, Verb};
use std::alloc::Allocator;
use std::process::Abort;

fn see_job<A: Allocator>(rt: &impl Abort, plan: &Plan<A>, job: u8)
    ensures { job < length plan.now.jobs }
{
    assert!(rt; (job as usize) < plan.jobs(), "no job {job}");
}

fn see_session<A: Allocator>(rt: &impl Abort, plan: &Plan<A>, job: u8, session: u32)
    ensures is_job { job < length plan.now.jobs }
    ensures begun { 1 ≤ session }
    ensures is_session { session ≤ length (sessions plan.now job) }
{
    see_job(rt, plan, job);
    let last = plan.sessions(JobNo(job));
    assert!(rt; 1 <= session && session <= last, "no session {session}");
}

fn see_edge<A: Allocator>(rt: &impl Abort, plan: &Plan<A>, edge: u16)
    ensures { edge < length (edges plan.now) }
{
    assert!(rt; edge < plan.edges(), "no edge {edge}");
}

fn see_instrument<A: Allocator>(rt: &impl Abort, plan: &Plan<A>, instrument: u8)
    ensures { instrument < length plan.now.instruments }
{
    assert!(rt;
        (instrument as usize) < plan.instruments(),
        "no instrument {instrument}"
    );
}

/// A job: its name, how many sessions it has, and its edges.
pub(crate) type Job<'p> = (&'p [u8], u32, &'p [EdgeNo]);

pub(crate) fn job_of<'p, A: Allocator>(rt: &impl Abort, plan: &'p Plan<A>, job: u8) -> Job<'p> {
    see_job(rt, plan, job);
    let job = JobNo(job);
    (plan.job_name(job), plan.sessions(job), plan.edges_of(job))
}

pub(crate) fn instrument_name<'p, A: Allocator>(
    rt: &impl Abort,
    plan: &'p Plan<A>,
    instrument: u8,
) -> &'p [u8] {
    see_instrument(rt, plan, instrument);
    plan.instrument_name(InstrumentNo(instrument))
}

/// A session: its patience, the instruments that it needs as a set, and its commands.
pub(crate) type Session<'p> = (Option<u32>, u64, &'p [(InstrumentNo, Verb)]);

pub(crate) fn session_of<'p, A: Allocator>(
    rt: &impl Abort,
    plan: &'p Plan<A>,
    job: u8,
    session: u32,
) -> Session<'p> {
    see_session(rt, plan, job, session);
    let job = JobNo(job);
    let commands = plan.commands(job, session);
    (
        plan.patience(job, session),
        plan.needs(job, session),
        commands,
    )
}

pub(crate) fn needed_of<A: Allocator>(
    rt: &impl Abort,
    plan: &Plan<A>,
    job: u8,
    session: u32,
    edge: u16,
) -> u32 {
    see_session(rt, plan, job, session);
    see_edge(rt, plan, edge);
    plan.needed_bottles(JobNo(job), session, EdgeNo(edge))
}

pub(crate) fn part_of<A: Allocator>(
    rt: &impl Abort,
    plan: &Plan<A>,
    job: u8,
    session: u32,
    instrument: u8,
) -> u32 {
    see_session(rt, plan, job, session);
    see_instrument(rt, plan, instrument);
    plan.part(JobNo(job), session, InstrumentNo(instrument))
}

pub(crate) fn place_of<A: Allocator>(
    rt: &impl Abort,
    plan: &Plan<A>,
    job: u8,
    session: u32,
    position: u32,
) -> Place {
    see_session(rt, plan, job, session);
    assert!(rt; (position as usize) < plan.commands(JobNo(job), session).len());
    plan.place(JobNo(job), session, position)
}

/// The ends of an edge, and how many bottles it has.
pub(crate) fn ends_of<A: Allocator>(
    rt: &impl Abort,
    plan: &Plan<A>,
    edge: u16,
) -> ((JobNo, JobNo), u32) {
    see_edge(rt, plan, edge);
    (plan.ends(EdgeNo(edge)), plan.bottles(EdgeNo(edge)))
}

pub(crate) fn edge_of<A: Allocator>(
    rt: &impl Abort,
    plan: &Plan<A>,
    a: u8,
    b: u8,
) -> Option<EdgeNo> {
    see_job(rt, plan, a);
    see_job(rt, plan, b);
    plan.edge_of(JobNo(a), JobNo(b))
}

pub(crate) fn bottle_of<A: Allocator>(
    rt: &impl Abort,
    plan: &Plan<A>,
    edge: u16,
    instrument: u8,
) -> Option<u32> {
    see_edge(rt, plan, edge);
    plan.bottle_of(EdgeNo(edge), InstrumentNo(instrument))
}

pub(crate) fn instrument_of<A: Allocator>(
    rt: &impl Abort,
    plan: &Plan<A>,
    edge: u16,
    bottle: u32,
) -> InstrumentNo {
    see_edge(rt, plan, edge);
    assert!(rt; bottle < plan.bottles(EdgeNo(edge)));
    plan.instrument_of(EdgeNo(edge), bottle)
}
