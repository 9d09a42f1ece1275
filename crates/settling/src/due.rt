//! Which jobs may have something to do, and at which ends of edges nothing is to be done.
ghost use Rattle.std.specs.Prelude.{◌≡◌, ◌<◌, ◌≤◌, ℕ, true, false, length, replicate, IfOk, IsTrue};
ghost use Rattle.lab_plan.specs.LabPlan.{edges};
ghost use Rattle.legal_steps.specs.State.{State, IsOwn, end_of};
ghost use Rattle.legal_steps.specs.Legal.{IsJob};
ghost use Rattle.settling.specs.Left.{DueView, IsDueOf, AreMarked, KeepsMarks, IsBy, IsBySelf};
ghost use Rattle.settling.specs.Left.{is_due, is_noted as is_noted_of, only_at as only_at_of};
ghost use Rattle.settling.specs.Attending.{not_due, with_due, with_note, woken_at, placed, place_of as place_for};

use lab_plan::{EdgeNo, JobNo, Plan};
use late_thirst::{has, next_of};
use legal_steps::End;
use std::alloc::{AllocError, Allocator, Global};
use std::marker::Model;

/// The jobs that may have something to do, with the edge at which alone each may, if that is known. And a note for each end of each
/// edge that whoever is there has nothing to do there.
#[derive(Drop)]
pub struct Due<A: Allocator = Global> {
    /// Bit k for job k, of this many jobs.
    pub(crate) jobs: u32,
    pub(crate) many: usize,
    pub(crate) only: Vec<u32, A>,
    pub(crate) lower: Vec<bool, A>,
    pub(crate) higher: Vec<bool, A>,
    /// An edge at which the job lacked a mark for a bottle, and one without a fork mark, when it was asked last. Nothing rests on them.
    pub(crate) dry: Vec<EdgeNo, A>,
    pub(crate) bare: Vec<EdgeNo, A>,
}

impl<A: Allocator> Model for Due<A> {
    ghost use Rattle.std.specs.Prelude.{◌≤◌};
    ghost use Rattle.settling.specs.Left.{DueView};
    ghost use Rattle.settling.specs.Members.{members};

    ghost Value = { DueView };

    ghost invariant = { λ x. x.many ≤ 32 };

    ghost view = { λ x. record { jobs = members x.jobs x.many; only = x.only.items; lower = x.lower.items; higher = x.higher.items } };
}

impl<A: Allocator + Copy> Due<A> {
    /// All jobs of the plan are due, and nothing is noted.
    pub fn all(alloc: A, plan: &Plan<A>) -> Result<Due<A>, AllocError>
        ensures fits { IfOk result (IsDueOf plan.now) }
        ensures marked { IfOk result (λ due. (s : State) → AreMarked plan.now s due) }
    {
        let edges = plan.edges() as usize;
        Ok(Due {
            jobs: u32::MAX,
            many: plan.jobs(),
            only: Vec::from_elem(alloc, 0u32, plan.jobs())?,
            lower: Vec::from_elem(alloc, false, edges)?,
            higher: Vec::from_elem(alloc, false, edges)?,
            dry: Vec::from_elem(alloc, EdgeNo(0), plan.jobs())?,
            bare: Vec::from_elem(alloc, EdgeNo(0), plan.jobs())?,
        })
    }
}

/// Whether the job is due.
pub(crate) fn is_due<A: Allocator>(due: &Due<A>, job: JobNo) -> bool
    requires { job < length due.now.jobs }
    ensures { result ≡ is_due due.now job }
{
    has(due.jobs, job.0 as usize)
}

/// The first job that is due from this one on, or the end if there is none in front of it.
pub(crate) fn next_due<A: Allocator>(due: &Due<A>, from: usize, end: usize) -> usize
    requires inside { from ≤ end }
    requires jobs { end ≤ length due.now.jobs }
    ensures low { from ≤ result }
    ensures high { result ≤ end }
    ensures passed { (k : ℕ) → from ≤ k → k < result → is_due due.now k ≡ false }
    ensures found { result < end → is_due due.now result ≡ true }
{
    next_of(due.jobs, from, end)
}

/// The job is due.
fn add<A: Allocator>(due: &mut Due<A>, job: JobNo)
    requires { job < length due.old.jobs }
    ensures { due.new ≡ with_due due.old job }
{
    let before = due.jobs;
    due.jobs = before | 1 << job.0;
}

/// 0, or 1 more than the number of the edge at which alone the job may have something to do.
pub(crate) fn only_at<A: Allocator>(due: &Due<A>, job: JobNo) -> u32
    requires { job < length due.now.only }
    ensures { result ≡ only_at_of due.now job }
{
    due.only[job.0 as usize]
}

/// The same, once the job has something to do at this edge.
fn place_of<A: Allocator>(due: &Due<A>, job: JobNo, edge: EdgeNo) -> u32
    requires jobs { job < length due.now.jobs }
    requires only { job < length due.now.only }
    ensures { result ≡ place_for due.now job edge }
{
    let here = edge.0 as u32 + 1;
    if !is_due(due, job) {
        return here;
    }
    if only_at(due, job) == here {
        return here;
    }
    0
}

/// The job may have something to do at this edge.
fn place<A: Allocator>(due: &mut Due<A>, job: JobNo, edge: EdgeNo)
    requires jobs { job < length due.old.jobs }
    requires only { job < length due.old.only }
    ensures { due.new ≡ placed due.old job edge }
{
    due.only[job.0 as usize] = place_of(due, job, edge);
}

/// The job isn't due any more.
pub(crate) fn clear<A: Allocator>(due: &mut Due<A>, job: JobNo)
    requires { job < length due.old.jobs }
    ensures { due.new ≡ not_due due.old job }
{
    let before = due.jobs;
    due.jobs = before & !(1 << job.0);
}

/// Whether it is noted of this end of the edge.
pub(crate) fn is_noted<A: Allocator>(due: &Due<A>, here: End, edge: EdgeNo) -> bool
    requires lower { edge < length due.now.lower }
    requires higher { edge < length due.now.higher }
    ensures { result ≡ is_noted_of due.now here edge }
{
    match here {
        End::Lower => due.lower[edge.0 as usize],
        End::Higher => due.higher[edge.0 as usize],
    }
}

/// Notes it of this end of the edge.
pub(crate) fn note<A: Allocator>(due: &mut Due<A>, here: End, edge: EdgeNo)
    requires lower { edge < length due.old.lower }
    requires higher { edge < length due.old.higher }
    ensures { due.new ≡ with_note due.old here edge true }
{
    match here {
        End::Lower => due.lower[edge.0 as usize] = true,
        End::Higher => due.higher[edge.0 as usize] = true,
    }
}

/// Nothing is noted of this end of the edge any more.
fn forget<A: Allocator>(due: &mut Due<A>, here: End, edge: EdgeNo)
    requires lower { edge < length due.old.lower }
    requires higher { edge < length due.old.higher }
    ensures { due.new ≡ with_note due.old here edge false }
{
    match here {
        End::Lower => due.lower[edge.0 as usize] = false,
        End::Higher => due.higher[edge.0 as usize] = false,
    }
}

/// The jobs at both ends of the edge are due, and nothing is noted of the edge any more.
pub(crate) fn wake_at<A: Allocator>(plan: &Plan<A>, due: &mut Due<A>, edge: EdgeNo)
    requires edge { edge < length (edges plan.now) }
    requires fits { IsDueOf plan.now due.old }
    ensures { due.new ≡ woken_at plan.now due.old edge }
{
    let (lower, higher) = plan.ends(edge);
    place(due, lower, edge);
    place(due, higher, edge);
    add(due, lower);
    add(due, higher);
    forget(due, End::Lower, edge);
    forget(due, End::Higher, edge);
}

/// To be called after events of the job that moved nothing at an edge: it is due, and nothing is noted of its own ends any more.
pub fn wake_self<A: Allocator>(plan: &Plan<A>, due: &mut Due<A>, job: JobNo)
    requires job { IsJob plan.now job }
    requires fits { IsDueOf plan.now due.old }
    ensures fits { IsDueOf plan.now due.new }
    ensures keeps { KeepsMarks plan.now (IsBySelf job) due.old due.new }
{
    add(due, job);
    due.only[job.0 as usize] = 0;
    for edge in plan.edges_of(job) {
        forget(due, End::of(plan, job, *edge), *edge);
    }
}

/// To be called after any other events of the job: it is due with all its neighbours, and nothing is noted of either end of its edges.
pub fn wake_near<A: Allocator>(plan: &Plan<A>, due: &mut Due<A>, job: JobNo)
    requires job { IsJob plan.now job }
    requires fits { IsDueOf plan.now due.old }
    ensures fits { IsDueOf plan.now due.new }
    ensures keeps { KeepsMarks plan.now (IsBy job) due.old due.new }
{
    add(due, job);
    due.only[job.0 as usize] = 0;
    for edge in plan.edges_of(job) {
        wake_at(plan, due, *edge);
    }
}
