//! The benches that the tests run: scripts of their plans, and steps that are taken on them.
ghost use Rattle.std.specs.Prelude.{IsTrue};
ghost use Rattle.legal_steps.specs.Steps.{IsStepOf};

use interleaving::{EdgeState, Event, JobState, Step, World};
use lab_plan::{EdgeNo, JobNo, Plan};
use script_reader::read_plan;
use std::alloc::Allocator;
use std::process::Abort;

// The numbers of jobs and edges are plain ones, because a table of these is one constant. Of steps and events each row would be proved,
// in each function that names the table.
pub(crate) const A: u8 = 0;

pub(crate) const B: u8 = 1;

pub(crate) const C: u8 = 2;

/// Two edges of three jobs; of two jobs there is only the first.
pub(crate) const AB: u16 = 0;

pub(crate) const AC: u16 = 1;

/// A step, as tables have it.
#[derive(Clone, Copy)]
pub(crate) enum Do {
    Look(u8, u16),
    AskFork(u8, u16),
    GiveFork(u8, u16),
    Soil(u8, u16),
    AskBottles(u8, u16, u32),
    GiveBottles(u8, u16, u32),
    Thirst(u8),
    Hunger(u8),
    Sit(u8),
    Leave(u8),
    Drink(u8),
    Reach(u8),
    Act(u8),
    Quit(u8),
    Retire(u8),
    Glance(u8, u8),
    Withdraw(u8),
}

pub(crate) fn step_of(it: Do) -> Step {
    match it {
        Do::Look(job, edge) => Step::Look(JobNo(job), EdgeNo(edge)),
        Do::AskFork(job, edge) => Step::AskFork(JobNo(job), EdgeNo(edge)),
        Do::GiveFork(job, edge) => Step::GiveFork(JobNo(job), EdgeNo(edge)),
        Do::Soil(job, edge) => Step::Soil(JobNo(job), EdgeNo(edge)),
        Do::AskBottles(job, edge, set) => Step::AskBottles(JobNo(job), EdgeNo(edge), set),
        Do::GiveBottles(job, edge, set) => Step::GiveBottles(JobNo(job), EdgeNo(edge), set),
        Do::Thirst(job) => Step::Thirst(JobNo(job)),
        Do::Hunger(job) => Step::Hunger(JobNo(job)),
        Do::Sit(job) => Step::Sit(JobNo(job)),
        Do::Leave(job) => Step::Leave(JobNo(job)),
        Do::Drink(job) => Step::Drink(JobNo(job)),
        Do::Reach(job) => Step::Reach(JobNo(job)),
        Do::Act(job) => Step::Act(JobNo(job)),
        Do::Quit(job) => Step::Quit(JobNo(job)),
        Do::Retire(job) => Step::Retire(JobNo(job)),
        Do::Glance(job, other) => Step::Glance(JobNo(job), JobNo(other)),
        Do::Withdraw(job) => Step::Withdraw(JobNo(job)),
    }
}

/// The step's event, if it sees this edge, or this state of a job.
pub(crate) fn event_seen(step: Step, edge: EdgeState, state: JobState) -> Event {
    match step {
        Step::Look(job, at) => Event::Look(job, at, edge),
        Step::AskFork(job, at) => Event::AskFork(job, at),
        Step::GiveFork(job, at) => Event::GiveFork(job, at),
        Step::Soil(job, at) => Event::Soil(job, at),
        Step::AskBottles(job, at, set) => Event::AskBottles(job, at, set),
        Step::GiveBottles(job, at, set) => Event::GiveBottles(job, at, set),
        Step::Thirst(job) => Event::Thirst(job),
        Step::Hunger(job) => Event::Hunger(job),
        Step::Sit(job) => Event::Sit(job),
        Step::Leave(job) => Event::Leave(job),
        Step::Drink(job) => Event::Drink(job),
        Step::Reach(job) => Event::Reach(job),
        Step::Act(job) => Event::Act(job),
        Step::Quit(job) => Event::Quit(job),
        Step::Retire(job) => Event::Retire(job),
        Step::Glance(job, other) => Event::Glance(job, other, state),
        Step::Withdraw(job) => Event::Withdraw(job),
    }
}

/// Jobs a and b, which add 1 on the scale in one session each.
pub(crate) const TWO: &str =
    "lab 1\njob a\nsession\nscale add 1\nend\njob b\nsession\nscale add 1\nend\n";

/// The same, with a second session of a.
pub(crate) const TWICE: &str =
    "lab 1\njob a\nsession\nscale add 1\nend\nsession\nscale add 1\nend\njob b\nsession\nscale add 1\nend\n";

/// The same as the first, with a session of b that has the patience 0.
pub(crate) const IMPATIENT: &str =
    "lab 2\njob a\nsession\nscale add 1\nend\njob b\nsession patience 0\nscale add 1\nend\n";

/// Jobs a, b and c, which read the same three instruments in one session each.
pub(crate) const THREE: &str =
    "lab 1\njob a\nsession\nlamp read\npump read\nscale read\nend\njob b\nsession\nlamp read\npump read\nscale read\nend\njob c\nsession\nlamp read\npump read\nscale read\nend\n";

/// The same with a command that adds 1 in place of each that reads.
pub(crate) const THREE_ADD: &str =
    "lab 1\njob a\nsession\nlamp add 1\npump add 1\nscale add 1\nend\njob b\nsession\nlamp add 1\npump add 1\nscale add 1\nend\njob c\nsession\nlamp add 1\npump add 1\nscale add 1\nend\n";

pub(crate) fn plan_of<T: Allocator + Copy>(rt: &impl Abort, alloc: T, script: &str) -> Plan<T> {
    match read_plan(alloc, script.as_bytes()) {
        Ok(plan) => plan,
        Err(_) => panic!(rt; "no plan"),
    }
}

/// A thirsty job eats before it drinks.
pub(crate) const MEAL_FIRST: [Do; 4] = [Do::Thirst(A), Do::Hunger(A), Do::Look(A, AB), Do::Sit(A)];

/// Job a sits on a mark that is out of date: b asked since then. Then a gives what it was asked for, b eats, and a
/// sits once more.
pub(crate) const STALE_MARK: [Do; 29] = [
    Do::Thirst(A),
    Do::Hunger(A),
    Do::Thirst(B),
    Do::Hunger(B),
    Do::Look(A, AB),
    Do::AskFork(B, AB),
    Do::Sit(A),
    Do::Drink(A),
    Do::Look(A, AB),
    Do::Reach(A),
    Do::Act(A),
    Do::Quit(A),
    Do::Leave(A),
    Do::Thirst(A),
    Do::Hunger(A),
    Do::Look(A, AB),
    Do::GiveFork(A, AB),
    Do::Look(B, AB),
    Do::Sit(B),
    Do::AskBottles(B, AB, 1),
    Do::GiveBottles(A, AB, 1),
    Do::Look(B, AB),
    Do::Drink(B),
    Do::AskFork(A, AB),
    Do::Soil(B, AB),
    Do::Leave(B),
    Do::GiveFork(B, AB),
    Do::Look(A, AB),
    Do::Sit(A),
];

// The stages of that run which tests name: how many of its steps are done once this was.
pub(crate) mod stage {
    pub(crate) const B_ASKS: usize = 6;

    pub(crate) const A_HAS_A_STALE_MARK: usize = 16;

    pub(crate) const A_ASKS: usize = 24;
}

/// Of three jobs, a gets both its forks, eats and soils them.
pub(crate) const MEAL_OF_THREE: [Do; 11] = [
    Do::Thirst(A),
    Do::Hunger(A),
    Do::AskFork(A, AB),
    Do::AskFork(A, AC),
    Do::GiveFork(B, AB),
    Do::GiveFork(C, AC),
    Do::Look(A, AB),
    Do::Look(A, AC),
    Do::Sit(A),
    Do::Soil(A, AC),
    Do::Soil(A, AB),
];

/// How many of those steps are done before a sits.
pub(crate) const BEFORE_THE_MEAL: usize = 8;

/// Whether the step's numbers are the plan's.
pub(crate) fn is_step_of<T: Allocator>(plan: &Plan<T>, step: Step) -> bool
    ensures { IsTrue result → IsStepOf plan.now step }
{
    let is_job = |job: JobNo| (job.0 as usize) < plan.jobs();
    match step {
        Step::Look(job, edge)
        | Step::AskFork(job, edge)
        | Step::GiveFork(job, edge)
        | Step::Soil(job, edge)
        | Step::AskBottles(job, edge, _)
        | Step::GiveBottles(job, edge, _) => is_job(job) && edge.0 < plan.edges(),
        Step::Glance(job, other) => is_job(job) && is_job(other),
        Step::Thirst(job)
        | Step::Hunger(job)
        | Step::Sit(job)
        | Step::Leave(job)
        | Step::Drink(job)
        | Step::Reach(job)
        | Step::Act(job)
        | Step::Quit(job)
        | Step::Retire(job)
        | Step::Withdraw(job) => is_job(job),
    }
}

/// The step's event, with what is there to be seen.
pub(crate) fn event_of<T: Allocator>(rt: &impl Abort, world: &World<T>, it: Do) -> Event {
    let step = step_of(it);
    assert!(rt; is_step_of(world.plan(), step));
    world.event_of(&step)
}
