//! How a job and its edges are.
ghost use Rattle.std.specs.Prelude.{◌≡◌, ◌<◌, ◌++◌, length, decimal, OnOk};
ghost use Rattle.lab_plan.specs.LabPlan.{edges, bottles};
ghost use Rattle.legal_steps.specs.State.{IsOwn};
ghost use Rattle.legal_steps.specs.Legal.{IsJob};
ghost use Rattle.explaining.specs.StateTexts.{dining_text, drinking_text, at_text, mark_text, dirt_text, doing_text, session_text, done_text, phase_line};
ghost use Rattle.explaining.specs.StateTexts.{places_text, marks_text, fork_head, fork_line, bottle_head, bottle_line, edge_text, job_text};

use interleaving::{Dining, Drinking, End, JobState, World};
use itoa::Buffer;
use lab_plan::{EdgeNo, JobNo, Plan};
use legal_steps::{bottle_end, has};
use std::alloc::{AllocError, Allocator};
use step_texts::{add_bottle, add_job, add_other};

fn dining(dining: Dining) -> &'static [u8]
    ensures { result.now ≡ dining_text dining }
{
    match dining {
        Dining::Thinking => b"thinking",
        Dining::Hungry => b"hungry",
        Dining::Eating => b"eating",
    }
}

fn drinking(drinking: Drinking) -> &'static [u8]
    ensures { result.now ≡ drinking_text drinking }
{
    match drinking {
        Drinking::Tranquil => b"in no session",
        Drinking::Thirsty => b"thirsty",
        Drinking::Drinking => b"drinking",
        Drinking::Reaching => b"reaching",
        Drinking::Retired => b"retired",
    }
}

/// Whether a thing at an end is here.
fn at(here: End, thing: End) -> &'static [u8]
    ensures { result.now ≡ at_text here thing }
{
    match (here, thing) {
        (End::Lower, End::Lower) => b"here",
        (End::Higher, End::Higher) => b"here",
        (End::Lower, End::Higher) => b"there",
        (End::Higher, End::Lower) => b"there",
    }
}

fn mark(is_marked: bool) -> &'static [u8]
    ensures { result.now ≡ mark_text is_marked }
{
    if is_marked { b"marked" } else { b"not marked" }
}

fn add_number<A: Allocator>(out: &mut Vec<u8, A>, number: u32) -> Result<(), AllocError>
    ensures { OnOk result (out.new.items ≡ out.old.items ++ decimal number) }
{
    out.extend_from_slice(Buffer::new().format(number).as_bytes())
}

/// What a job does.
#[tactic(auto, unfolding(crate::specs::StateTexts::doing_text))]
fn add_doing<A: Allocator>(out: &mut Vec<u8, A>, phase: JobState) -> Result<(), AllocError>
    ensures { OnOk result (out.new.items ≡ out.old.items ++ doing_text phase) }
{
    out.extend_from_slice(dining(phase.dining))?;
    out.extend_from_slice(b", ")?;
    out.extend_from_slice(drinking(phase.drinking))
}

/// Which of its sessions it is in, or was last.
#[tactic(auto, unfolding(crate::specs::StateTexts::session_text))]
fn add_session<A: Allocator>(
    out: &mut Vec<u8, A>,
    session: u32,
    total: u32,
) -> Result<(), AllocError>
    ensures { OnOk result (out.new.items ≡ out.old.items ++ session_text session total) }
{
    out.extend_from_slice(b", session ")?;
    add_number(out, session)?;
    out.extend_from_slice(b" of ")?;
    add_number(out, total)
}

/// How many commands of the session are done.
#[tactic(auto, unfolding(crate::specs::StateTexts::done_text))]
fn add_done<A: Allocator>(out: &mut Vec<u8, A>, position: u32) -> Result<(), AllocError>
    ensures { OnOk result (out.new.items ≡ out.old.items ++ done_text position) }
{
    out.extend_from_slice(b", commands done: ")?;
    add_number(out, position)?;
    out.extend_from_slice(b"\n")
}

/// How far the job is.
#[tactic(auto, unfolding(crate::specs::StateTexts::phase_line))]
fn add_phase<A: Allocator, B: Allocator>(
    out: &mut Vec<u8, A>,
    world: &World<'_, B>,
    job: JobNo,
) -> Result<(), AllocError>
    requires { IsJob world.now.plan job }
    ensures { OnOk result (out.new.items ≡ out.old.items ++ phase_line world.now.plan world.now.state job) }
{
    let phase = world.job(job);
    add_job(out, world.plan(), job)?;
    out.extend_from_slice(b": ")?;
    add_doing(out, phase)?;
    add_session(out, phase.session, world.plan().sessions(job))?;
    add_done(out, phase.position)
}

/// Where a thing and its request token are.
#[tactic(auto, unfolding(crate::specs::StateTexts::places_text))]
fn add_places<A: Allocator>(
    out: &mut Vec<u8, A>,
    here: End,
    thing: End,
    token: End,
) -> Result<(), AllocError>
    ensures { OnOk result (out.new.items ≡ out.old.items ++ places_text here thing token) }
{
    out.extend_from_slice(at(here, thing))?;
    out.extend_from_slice(b", token ")?;
    out.extend_from_slice(at(here, token))
}

/// Whether the job has a mark for it.
#[tactic(auto, unfolding(crate::specs::StateTexts::marks_text))]
fn add_mark<A: Allocator>(out: &mut Vec<u8, A>, is_marked: bool) -> Result<(), AllocError>
    ensures { OnOk result (out.new.items ≡ out.old.items ++ marks_text is_marked) }
{
    out.extend_from_slice(b", ")?;
    out.extend_from_slice(mark(is_marked))?;
    out.extend_from_slice(b"\n")
}

fn add_fork_head<A: Allocator, B: Allocator>(
    out: &mut Vec<u8, A>,
    plan: &Plan<B>,
    job: JobNo,
    edge: EdgeNo,
) -> Result<(), AllocError>
    requires { edge < length (edges plan.now) }
    ensures { OnOk result (out.new.items ≡ out.old.items ++ fork_head plan.now job edge) }
{
    out.extend_from_slice(b"  fork with ")?;
    add_other(out, plan, job, edge)?;
    out.extend_from_slice(b": ")?;
    Ok(())
}

fn dirt(is_dirty: bool) -> &'static [u8]
    ensures { result.now ≡ dirt_text is_dirty }
{
    if is_dirty { b"dirty, " } else { b"clean, " }
}

/// The fork of an edge.
#[tactic(auto, unfolding(crate::specs::StateTexts::fork_line))]
fn add_fork<A: Allocator, B: Allocator>(
    out: &mut Vec<u8, A>,
    world: &World<'_, B>,
    job: JobNo,
    edge: EdgeNo,
) -> Result<(), AllocError>
    requires { IsOwn world.now.plan job edge }
    ensures { OnOk result (out.new.items ≡ out.old.items ++ fork_line world.now.plan world.now.state job edge) }
{
    let here = End::of(world.plan(), job, edge);
    let state = world.edge(edge);
    add_fork_head(out, world.plan(), job, edge)?;
    out.extend_from_slice(dirt(state.dirty))?;
    add_places(out, here, state.fork, state.token)?;
    add_mark(out, world.fork_mark(job, edge))
}

fn add_bottle_head<A: Allocator, B: Allocator>(
    out: &mut Vec<u8, A>,
    plan: &Plan<B>,
    job: JobNo,
    edge: EdgeNo,
    bottle: u32,
) -> Result<(), AllocError>
    requires is_edge { edge < length (edges plan.now) }
    requires is_bottle { bottle < length (bottles plan.now edge) }
    ensures { OnOk result (out.new.items ≡ out.old.items ++ bottle_head plan.now job edge bottle) }
{
    out.extend_from_slice(b"  bottle of ")?;
    add_bottle(out, plan, edge, bottle)?;
    out.extend_from_slice(b" with ")?;
    add_other(out, plan, job, edge)?;
    out.extend_from_slice(b": ")?;
    Ok(())
}

/// A bottle of an edge.
#[tactic(auto, unfolding(crate::specs::StateTexts::bottle_line))]
fn add_bottle_line<A: Allocator, B: Allocator>(
    out: &mut Vec<u8, A>,
    world: &World<'_, B>,
    job: JobNo,
    edge: EdgeNo,
    bottle: u32,
) -> Result<(), AllocError>
    requires own { IsOwn world.now.plan job edge }
    requires is_bottle { bottle < length (bottles world.now.plan edge) }
    ensures { OnOk result (out.new.items ≡ out.old.items ++ bottle_line world.now.plan world.now.state job edge bottle) }
{
    // this call ensures that an edge has few bottles
    let _ = world.plan().bottles(edge);
    let here = End::of(world.plan(), job, edge);
    let state = world.edge(edge);
    let place = bottle_end(state.bottles, bottle);
    let token = bottle_end(state.bottle_tokens, bottle);
    add_bottle_head(out, world.plan(), job, edge, bottle)?;
    add_places(out, here, place, token)?;
    add_mark(out, has(world.bottle_marks(job, edge), bottle))?;
    Ok(())
}

/// An edge: its fork and its bottles.
#[tactic(auto, unfolding(crate::specs::StateTexts::edge_text))]
fn add_edge<A: Allocator, B: Allocator>(
    out: &mut Vec<u8, A>,
    world: &World<'_, B>,
    job: JobNo,
    edge: EdgeNo,
) -> Result<(), AllocError>
    requires { IsOwn world.now.plan job edge }
    ensures { OnOk result (out.new.items ≡ out.old.items ++ edge_text world.now.plan world.now.state job edge) }
{
    add_fork(out, world, job, edge)?;
    for bottle in 0..world.plan().bottles(edge) {
        add_bottle_line(out, world, job, edge, bottle)?;
    }
    Ok(())
}

/// A job: how far it is, and each of its edges.
#[tactic(auto, unfolding(crate::specs::StateTexts::job_text))]
pub(crate) fn add_job_state<A: Allocator, B: Allocator>(
    out: &mut Vec<u8, A>,
    world: &World<'_, B>,
    job: JobNo,
) -> Result<(), AllocError>
    requires { IsJob world.now.plan job }
    ensures { OnOk result (out.new.items ≡ out.old.items ++ job_text world.now.plan world.now.state job) }
{
    add_phase(out, world, job)?;
    for edge in world.plan().edges_of(job) {
        add_edge(out, world, job, *edge)?;
    }
    Ok(())
}
