//! What a job that waits can count on: worked cases, whose answers were worked out by hand.
ghost use Rattle.std.specs.Prelude.{IsTrue};
ghost use Rattle.legal_steps.specs.State.{IsOwn};

use crate::benches::{Do, event_of, plan_of};
use interleaving::{End, EndChoice, World};
use lab_plan::{EdgeNo, JobNo, Plan};
use linked_list_allocator::LocalHeap;
use std::alloc::Allocator;
use std::process::Abort;

mod meals;
mod triangle;
mod ways;

use triangle::Pair;

/// The one edge of two jobs, with all at the lower one.
const ALL_LOWER: [EndChoice; 1] = [EndChoice {
    fork: End::Lower,
    bottles: 0,
}];

/// The edges of three jobs, with every fork at the higher one.
const FORKS_HIGHER: [EndChoice; 3] = [EndChoice {
    fork: End::Higher,
    bottles: 0,
}; 3];

/// What is asked of a world that has just started.
#[derive(Clone, Copy)]
enum Question<'a> {
    /// The meals that are overtaken with a stale mark.
    Overtaking,
    /// The rankings before and after the meal of three.
    Rankings,
    /// Whether just these pairs precede after these steps.
    Pairs(&'a [Do], &'a [Pair]),
    /// Whether the heap has memory for a ranking.
    Ranking(&'a LocalHeap),
    /// Whether a way leads on before each of these steps, and after them, or not there.
    Leads(&'a [Do], bool),
    /// Whether the ways on alone lead to the end, with these values in each log.
    Drives(&'a [u32]),
}

fn answer<T: Allocator + Copy>(
    rt: &impl Abort,
    alloc: T,
    world: &mut World<'_, T>,
    question: Question,
) -> bool {
    match question {
        Question::Overtaking => meals::overtakes_once(rt, alloc, world),
        Question::Rankings => meals::turns_with_meals(rt, alloc, world),
        Question::Pairs(steps, pairs) => triangle::has_pairs(rt, alloc, world, steps, pairs),
        Question::Ranking(heap) => meals::has_room(rt, heap, world),
        Question::Leads(steps, at_end) => ways::leads_all_along(rt, world, steps, at_end),
        Question::Drives(values) => ways::drives_to(rt, world, values),
    }
}

/// The answer of a world that starts with these choices. It alone owns a plan and its world.
fn ask<T: Allocator + Copy>(
    rt: &impl Abort,
    alloc: T,
    script: &str,
    choices: &[EndChoice],
    question: Question,
) -> bool {
    let plan = plan_of(rt, alloc, script);
    let mut world = start(rt, alloc, &plan, choices);
    answer(rt, alloc, &mut world, question)
}

fn start<'a, T: Allocator + Copy>(
    rt: &impl Abort,
    alloc: T,
    plan: &'a Plan<T>,
    choices: &[EndChoice],
) -> World<'a, T> {
    match World::start(alloc, plan, choices) {
        Ok(world) => world,
        Err(_) => panic!(rt; "no start"),
    }
}

/// Takes a step, which has to be legal.
pub(crate) fn take<T: Allocator>(rt: &impl Abort, world: &mut World<'_, T>, step: Do) {
    let event = event_of(rt, world, step);
    assert!(rt; world.step(event).is_ok());
}

/// Takes all of these steps.
pub(crate) fn go_on<T: Allocator>(rt: &impl Abort, world: &mut World<'_, T>, steps: &[Do]) {
    for step in steps {
        take(rt, world, *step);
    }
}

/// Whether the edge is one of the job's.
pub(crate) fn owns<T: Allocator>(plan: &Plan<T>, job: JobNo, edge: EdgeNo) -> bool
    ensures { IsTrue result → IsOwn plan.now job edge }
{
    if edge.0 >= plan.edges() {
        return false;
    }
    let (lower, higher) = plan.ends(edge);
    lower == job || higher == job
}
