//! The acts that a job does of itself.
ghost use Rattle.std.specs.Prelude.{◌≡◌, ◌↔◌, ◌<◌, true, false, length, IfSome, IfNone, IsTrue};
ghost use Rattle.lab_plan.specs.LabPlan.{edges};
ghost use Rattle.legal_steps.specs.declared.event.Event.TheVariants.{Sit, Leave, Drink};
ghost use Rattle.legal_steps.specs.State.{IsOwn, fork_mark as fork_mark_at};
ghost use Rattle.legal_steps.specs.Legal.{IsJob, May, HasNeeded, HasNeededAt, IsMarkedAll};
ghost use Rattle.settling.specs.Doing.{IsOwnAct, ActsAlone, act_of};
ghost use Rattle.settling.specs.Visiting.{DrinksAlone};

use crate::due::Due;
use crate::guesses::{bare_at, dry_at, is_bare, is_dry};
use crate::moves::needed_in;
use interleaving::World;
use lab_plan::{EdgeNo, JobNo, Plan};
use legal_steps::{Dining, Drinking, Event};
use std::alloc::Allocator;

/// Whether the edge is there, and one of the job's.
pub(crate) fn is_own<A: Allocator>(plan: &Plan<A>, job: JobNo, edge: EdgeNo) -> bool
    ensures { IsTrue result ↔ IsOwn plan.now job edge }
{
    if edge.0 >= plan.edges() {
        return false;
    }
    let (lower, higher) = plan.ends(edge);
    lower == job || higher == job
}

/// Whether the job has a mark for each bottle of the edge that it needs.
fn has_needed_at<A: Allocator>(world: &World<A>, job: JobNo, edge: EdgeNo) -> bool
    requires job { IsJob world.now.plan job }
    requires own { IsOwn world.now.plan job edge }
    ensures { IsTrue result ↔ HasNeededAt world.now.plan world.now.state job edge }
{
    let needed = needed_in(world.plan(), job, world.job(job), edge);
    let marks = world.bottle_marks(job, edge);
    needed & marks == needed
}

/// The first of the job's edges at which it lacks a mark for a bottle that it needs.
fn dry_edge<A: Allocator>(world: &World<A>, job: JobNo) -> Option<EdgeNo>
    requires { IsJob world.now.plan job }
    ensures none { IfNone result (HasNeeded world.now.plan world.now.state job) }
    ensures some { IfSome result (λ _. ¬ HasNeeded world.now.plan world.now.state job) }
{
    let own = world.plan().edges_of(job);
    for edge in own {
        if !has_needed_at(world, job, *edge) {
            return Some(*edge);
        }
    }
    None
}

/// The first of the job's edges without a fork mark.
fn bare_edge<A: Allocator>(world: &World<A>, job: JobNo) -> Option<EdgeNo>
    requires { IsJob world.now.plan job }
    ensures none { IfNone result (IsMarkedAll world.now.plan world.now.state job) }
    ensures some { IfSome result (λ _. ¬ IsMarkedAll world.now.plan world.now.state job) }
{
    let own = world.plan().edges_of(job);
    for edge in own {
        if !world.fork_mark(job, *edge) {
            return Some(*edge);
        }
    }
    None
}

/// Whether the guess is right that the job lacks a mark for a bottle of this edge.
fn lacks_at<A: Allocator>(world: &World<A>, job: JobNo, guess: EdgeNo) -> bool
    requires { IsJob world.now.plan job }
    ensures { IsTrue result → ¬ HasNeeded world.now.plan world.now.state job }
{
    is_own(world.plan(), job, guess) && !has_needed_at(world, job, guess)
}

/// Whether the guess is right that the job has no fork mark for this edge.
fn is_bare_at<A: Allocator>(world: &World<A>, job: JobNo, guess: EdgeNo) -> bool
    requires { IsJob world.now.plan job }
    ensures { IsTrue result → ¬ IsMarkedAll world.now.plan world.now.state job }
{
    is_own(world.plan(), job, guess) && !world.fork_mark(job, guess)
}

/// Whether the job has a mark for each bottle that it needs.
fn has_needed<A: Allocator>(world: &World<A>, due: &mut Due<A>, job: JobNo) -> bool
    requires { IsJob world.now.plan job }
    ensures has { IsTrue result ↔ HasNeeded world.now.plan world.now.state job }
    ensures same { due.new ≡ due.old }
{
    if lacks_at(world, job, dry_at(due, job)) {
        return false;
    }
    match dry_edge(world, job) {
        Some(edge) => {
            is_dry(due, job, edge);
            false
        }
        None => true,
    }
}

/// Whether the job has a mark for each of its forks.
fn is_marked_all<A: Allocator>(world: &World<A>, due: &mut Due<A>, job: JobNo) -> bool
    requires { IsJob world.now.plan job }
    ensures has { IsTrue result ↔ IsMarkedAll world.now.plan world.now.state job }
    ensures same { due.new ≡ due.old }
{
    if is_bare_at(world, job, bare_at(due, job)) {
        return false;
    }
    match bare_edge(world, job) {
        Some(edge) => {
            is_bare(due, job, edge);
            false
        }
        None => true,
    }
}

fn may_drink<A: Allocator>(world: &World<A>, due: &mut Due<A>, job: JobNo) -> bool
    requires { IsJob world.now.plan job }
    ensures may { IsTrue result ↔ May world.now.plan world.now.state (Drink job) }
    ensures same { due.new ≡ due.old }
{
    world.job(job).drinking == Drinking::Thirsty && has_needed(world, due, job)
}

fn may_leave<A: Allocator>(world: &World<A>, due: &mut Due<A>, job: JobNo) -> bool
    requires { IsJob world.now.plan job }
    ensures may { IsTrue result ↔ May world.now.plan world.now.state (Leave job) }
    ensures same { due.new ≡ due.old }
{
    world.job(job).may_leave() && is_marked_all(world, due, job)
}

fn may_sit<A: Allocator>(world: &World<A>, due: &mut Due<A>, job: JobNo) -> bool
    requires { IsJob world.now.plan job }
    ensures may { IsTrue result ↔ May world.now.plan world.now.state (Sit job) }
    ensures same { due.new ≡ due.old }
{
    world.job(job).dining == Dining::Hungry && is_marked_all(world, due, job)
}

/// Drinks, if that is legal. Answers whether it was.
pub(crate) fn drink_alone<A: Allocator>(world: &mut World<A>, due: &mut Due<A>, job: JobNo) -> bool
    requires { IsJob world.old.plan job }
    ensures drinks { DrinksAlone world.old job result world.new }
    ensures same { due.new ≡ due.old }
{
    if !may_drink(world, due, job) {
        return false;
    }
    world.done(Event::Drink(job));
    true
}

/// The first act of a job that may not drink that needs no word from its owner and is legal.
fn own_act<A: Allocator>(world: &World<A>, due: &mut Due<A>, job: JobNo) -> Option<Event>
    requires job { IsJob world.now.plan job }
    requires no_drink { ¬ May world.now.plan world.now.state (Drink job) }
    ensures first { IsOwnAct world.now.plan world.now.state job (act_of result) }
    ensures may { IfSome result (λ event. May world.now.plan world.now.state event) }
    ensures same { due.new ≡ due.old }
{
    if may_leave(world, due, job) {
        return Some(Event::Leave(job));
    }
    if may_sit(world, due, job) {
        return Some(Event::Sit(job));
    }
    if world.enabled(Event::Hunger(job)) {
        return Some(Event::Hunger(job));
    }
    None
}

/// Does it. Answers whether there was one.
pub(crate) fn act_alone<A: Allocator>(world: &mut World<A>, due: &mut Due<A>, job: JobNo) -> bool
    requires job { IsJob world.old.plan job }
    requires no_drink { ¬ May world.old.plan world.old.state (Drink job) }
    ensures acts { ActsAlone world.old job result world.new }
    ensures same { due.new ≡ due.old }
{
    let Some(event) = own_act(world, due, job) else {
        return false;
    };
    world.done(event);
    true
}
