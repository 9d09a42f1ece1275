//! The steps of a step list, by the names in a plan.
ghost use Rattle.std.specs.Prelude.{◌≡◌, ◌≢◌, ℕ, ◌<◌, ◌==◌, [], ◌∷◌, None, Some, length, if◌then◌else◌, MatchOption};
ghost use Rattle.lab_plan.specs.LabPlan.{edges};
ghost use Rattle.legal_steps.specs.declared.event.Step.TheVariants.{Glance};
ghost use Rattle.script_reader.specs.Fields.{fields};
ghost use Rattle.script_reader.specs.Steps.{job_named, edge_between, edge_named, job_event, edge_event, bottle_event};
ghost use Rattle.script_reader.specs.Steps.{job_step, edge_step, bottle_step, glance_step, or_else, step_with, step_in};

use crate::bottles::bottle_set;
use crate::field::{is_blank, next_field};
use lab_plan::{EdgeNo, JobNo, Plan, is_same_name};
use legal_steps::Step;
use std::alloc::Allocator;

/// The job with this name.
fn job_named<A: Allocator>(plan: &Plan<A>, name: &[u8]) -> Option<JobNo>
    ensures { MatchOption result (job_named plan.now name.now ≡ None) (λ j. (job_named plan.now name.now ≡ Some j) × (j < length plan.now.jobs)) }
{
    for number in 0..plan.jobs() {
        let job = JobNo(number as u8);
        if is_same_name(name, plan.job_name(job)) {
            return Some(job);
        }
    }
    None
}

/// The edge of two jobs.
#[tactic(auto, using(crate::proofs::EdgeNumbers::edge_none))]
fn edge_between<A: Allocator>(plan: &Plan<A>, job: JobNo, other: JobNo) -> Option<EdgeNo>
    requires job { job < length plan.now.jobs }
    requires other { other < length plan.now.jobs }
    ensures { MatchOption result (edge_between plan.now job other ≡ None) (λ e. (edge_between plan.now job other ≡ Some e) × (e < length (edges plan.now))) }
{
    match plan.edge_of(job, other) {
        None => None,
        Some(edge) => Some(edge),
    }
}

/// A job by its name, and its edge to another.
fn edge_named<A: Allocator>(plan: &Plan<A>, name: &[u8], other: &[u8]) -> Option<(JobNo, EdgeNo)>
    ensures { MatchOption result (edge_named plan.now name.now other.now ≡ None)
        (λ p. (edge_named plan.now name.now other.now ≡ Some p) × (p.1 < length (edges plan.now))) }
{
    let job = job_named(plan, name)?;
    let other = job_named(plan, other)?;
    let edge = edge_between(plan, job, other)?;
    Some((job, edge))
}

/// The event of a job alone that has this word.
#[tactic(auto, unfolding(crate::specs::Steps::job_event))]
fn job_event(word: &[u8], job: JobNo) -> Option<Step>
    ensures { result ≡ job_event word.now job }
{
    if is_same_name(word, b"thirst") {
        return Some(Step::Thirst(job));
    }
    if is_same_name(word, b"hunger") {
        return Some(Step::Hunger(job));
    }
    if is_same_name(word, b"sit") {
        return Some(Step::Sit(job));
    }
    if is_same_name(word, b"leave") {
        return Some(Step::Leave(job));
    }
    if is_same_name(word, b"drink") {
        return Some(Step::Drink(job));
    }
    if is_same_name(word, b"reach") {
        return Some(Step::Reach(job));
    }
    if is_same_name(word, b"act") {
        return Some(Step::Act(job));
    }
    if is_same_name(word, b"quit") {
        return Some(Step::Quit(job));
    }
    if is_same_name(word, b"retire") {
        return Some(Step::Retire(job));
    }
    if is_same_name(word, b"withdraw") {
        return Some(Step::Withdraw(job));
    }
    None
}

/// The event of a job at one of its edges that has this word.
#[tactic(auto, unfolding(crate::specs::Steps::edge_event))]
fn edge_event(word: &[u8], job: JobNo, edge: EdgeNo) -> Option<Step>
    ensures { result ≡ edge_event word.now job edge }
{
    if is_same_name(word, b"look") {
        return Some(Step::Look(job, edge));
    }
    if is_same_name(word, b"askfork") {
        return Some(Step::AskFork(job, edge));
    }
    if is_same_name(word, b"givefork") {
        return Some(Step::GiveFork(job, edge));
    }
    if is_same_name(word, b"soil") {
        return Some(Step::Soil(job, edge));
    }
    None
}

/// The event of a job with bottles of one of its edges that has this word.
#[tactic(auto, unfolding(crate::specs::Steps::bottle_event))]
fn bottle_event(word: &[u8], job: JobNo, edge: EdgeNo, set: u32) -> Option<Step>
    ensures { result ≡ bottle_event word.now job edge set }
{
    if is_same_name(word, b"askbottles") {
        return Some(Step::AskBottles(job, edge, set));
    }
    if is_same_name(word, b"givebottles") {
        return Some(Step::GiveBottles(job, edge, set));
    }
    None
}

/// The glance of a job at another job.
fn glance(job: JobNo, other: JobNo) -> Option<Step>
    ensures { result ≡ (if job == other then None else Some (Glance job other)) }
{
    if job == other {
        return None;
    }
    Some(Step::Glance(job, other))
}

/// The step of the job with this name.
fn job_step<A: Allocator>(plan: &Plan<A>, word: &[u8], name: &[u8]) -> Option<Step>
    ensures { result ≡ job_step plan.now word.now (name.now ∷ []) }
{
    job_event(word, job_named(plan, name)?)
}

/// The step of the job with this name at its edge with the other, or its glance at the other.
#[tactic(auto, unfolding(crate::specs::Steps::edge_event, crate::specs::Steps::glance_event))]
fn pair_step<A: Allocator>(plan: &Plan<A>, word: &[u8], name: &[u8], other: &[u8]) -> Option<Step>
    ensures { let names = name.now ∷ other.now ∷ [] in result ≡ or_else (edge_step plan.now word.now names) (glance_step plan.now word.now names) }
{
    let job = job_named(plan, name)?;
    let other = job_named(plan, other)?;
    if is_same_name(word, b"glance") {
        return glance(job, other);
    }
    let edge = edge_between(plan, job, other)?;
    edge_event(word, job, edge)
}

/// The step of the job with this name with bottles of its edge with the other.
fn bottle_step<A: Allocator>(
    plan: &Plan<A>,
    word: &[u8],
    name: &[u8],
    other: &[u8],
    bottles: &[u8],
) -> Option<Step>
    requires { fields bottles.now ≢ [] }
    ensures { result ≡ bottle_step plan.now word.now (name.now ∷ other.now ∷ fields bottles.now) }
{
    let (job, edge) = edge_named(plan, name, other)?;
    let set = bottle_set(plan, edge, bottles)?;
    bottle_event(word, job, edge, set)
}

/// The step with this word and these names: their number tells whose step it can be.
#[tactic(auto, using(crate::proofs::StepForms::only_first), unfolding(crate::specs::Steps::step_with))]
fn step_with<A: Allocator>(plan: &Plan<A>, word: &[u8], rest: &[u8]) -> Option<Step>
    ensures { result ≡ step_with plan.now word.now (fields rest.now) }
{
    let (name, rest) = next_field(rest)?;
    let Some((other, bottles)) = next_field(rest) else {
        return job_step(plan, word, name);
    };
    if is_blank(bottles) {
        return pair_step(plan, word, name, other);
    }
    bottle_step(plan, word, name, other, bottles)
}

/// The step of a line, if it has one; None if the line is skipped.
pub(crate) fn step_in<A: Allocator>(plan: &Plan<A>, line: &[u8]) -> Option<Option<Step>>
    ensures { result ≡ step_in plan.now line.now }
{
    let (first, rest) = next_field(line)?;
    if first[0] == b'#' {
        return None;
    }
    Some(step_with(plan, first, rest))
}
