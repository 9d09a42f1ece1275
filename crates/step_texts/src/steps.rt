//! Steps as they are written in a list of steps.
ghost use Rattle.std.specs.Prelude.{◌≡◌, ◌<◌, ◌++◌, length, codes, OnOk};
ghost use Rattle.lab_plan.specs.LabPlan.{edges, bottles};
ghost use Rattle.lab_plan.specs.Texts.{job_name};
ghost use Rattle.legal_steps.specs.Steps.{IsStepOf};
ghost use Rattle.step_texts.specs.Names.{other_name};
ghost use Rattle.step_texts.specs.StepTexts.{alone_text, pair_text, member_text, set_text, bottles_text, glance_text, step_text};

use crate::names::{add_bottle, add_job, add_other};
use lab_plan::{EdgeNo, JobNo, Plan};
use legal_steps::{Step, has};
use std::alloc::{AllocError, Allocator};

/// `WORD JOB`.
fn add_alone<A: Allocator, B: Allocator>(
    out: &mut Vec<u8, A>,
    plan: &Plan<B>,
    word: &[u8],
    job: JobNo,
) -> Result<(), AllocError>
    requires { job < length plan.now.jobs }
    ensures { OnOk result (out.new.items ≡ out.old.items ++ alone_text plan.now word.now job) }
{
    out.extend_from_slice(word)?;
    out.extend_from_slice(b" ")?;
    add_job(out, plan, job)
}

/// `WORD JOB JOB`, the second at the other end of the edge.
fn add_pair<A: Allocator, B: Allocator>(
    out: &mut Vec<u8, A>,
    plan: &Plan<B>,
    word: &[u8],
    job: JobNo,
    edge: EdgeNo,
) -> Result<(), AllocError>
    requires is_job { job < length plan.now.jobs }
    requires is_edge { edge < length (edges plan.now) }
    ensures { OnOk result (out.new.items ≡ out.old.items ++ pair_text plan.now word.now job edge) }
{
    add_alone(out, plan, word, job)?;
    out.extend_from_slice(b" ")?;
    add_other(out, plan, job, edge)
}

/// ` INSTRUMENT` if the bottle is in the set.
fn add_member<A: Allocator, B: Allocator>(
    out: &mut Vec<u8, A>,
    plan: &Plan<B>,
    edge: EdgeNo,
    set: u32,
    bottle: u32,
) -> Result<(), AllocError>
    requires is_edge { edge < length (edges plan.now) }
    requires is_bottle { bottle < length (bottles plan.now edge) }
    ensures { OnOk result (out.new.items ≡ out.old.items ++ member_text plan.now edge set bottle) }
{
    // this call ensures that an edge has few bottles
    let _ = plan.bottles(edge);
    if has(set, bottle) {
        out.extend_from_slice(b" ")?;
        add_bottle(out, plan, edge, bottle)?;
    }
    Ok(())
}

/// ` INSTRUMENT` for each bottle of the set.
fn add_set<A: Allocator, B: Allocator>(
    out: &mut Vec<u8, A>,
    plan: &Plan<B>,
    edge: EdgeNo,
    set: u32,
) -> Result<(), AllocError>
    requires { edge < length (edges plan.now) }
    ensures { OnOk result (out.new.items ≡ out.old.items ++ set_text plan.now edge set) }
{
    for bottle in 0..plan.bottles(edge) {
        add_member(out, plan, edge, set, bottle)?;
    }
    Ok(())
}

/// `WORD JOB JOB INSTRUMENT..`, an instrument for each bottle of the set.
fn add_bottles<A: Allocator, B: Allocator>(
    out: &mut Vec<u8, A>,
    plan: &Plan<B>,
    word: &[u8],
    job: JobNo,
    edge: EdgeNo,
    set: u32,
) -> Result<(), AllocError>
    requires is_job { job < length plan.now.jobs }
    requires is_edge { edge < length (edges plan.now) }
    ensures { OnOk result (out.new.items ≡ out.old.items ++ bottles_text plan.now word.now job edge set) }
{
    add_pair(out, plan, word, job, edge)?;
    add_set(out, plan, edge, set)
}

/// `glance JOB JOB`.
fn add_glance<A: Allocator, B: Allocator>(
    out: &mut Vec<u8, A>,
    plan: &Plan<B>,
    job: JobNo,
    other: JobNo,
) -> Result<(), AllocError>
    requires is_job { job < length plan.now.jobs }
    requires is_other { other < length plan.now.jobs }
    ensures { OnOk result (out.new.items ≡ out.old.items ++ glance_text plan.now job other) }
{
    add_alone(out, plan, b"glance", job)?;
    out.extend_from_slice(b" ")?;
    add_job(out, plan, other)
}

/// Adds the step as it is written in a list of steps, without the end of its line.
#[tactic(auto, unfolding(crate::specs::StepTexts::step_text))]
pub fn add_step<A: Allocator, B: Allocator>(
    out: &mut Vec<u8, A>,
    plan: &Plan<B>,
    step: &Step,
) -> Result<(), AllocError>
    requires { IsStepOf plan.now step.now }
    ensures { OnOk result (out.new.items ≡ out.old.items ++ step_text plan.now step.now) }
{
    match *step {
        Step::Look(job, edge) => add_pair(out, plan, b"look", job, edge),
        Step::AskFork(job, edge) => add_pair(out, plan, b"askfork", job, edge),
        Step::GiveFork(job, edge) => add_pair(out, plan, b"givefork", job, edge),
        Step::Soil(job, edge) => add_pair(out, plan, b"soil", job, edge),
        Step::AskBottles(job, edge, set) => {
            add_bottles(out, plan, b"askbottles", job, edge, set)
        }
        Step::GiveBottles(job, edge, set) => {
            add_bottles(out, plan, b"givebottles", job, edge, set)
        }
        Step::Thirst(job) => add_alone(out, plan, b"thirst", job),
        Step::Hunger(job) => add_alone(out, plan, b"hunger", job),
        Step::Sit(job) => add_alone(out, plan, b"sit", job),
        Step::Leave(job) => add_alone(out, plan, b"leave", job),
        Step::Drink(job) => add_alone(out, plan, b"drink", job),
        Step::Reach(job) => add_alone(out, plan, b"reach", job),
        Step::Act(job) => add_alone(out, plan, b"act", job),
        Step::Quit(job) => add_alone(out, plan, b"quit", job),
        Step::Retire(job) => add_alone(out, plan, b"retire", job),
        Step::Glance(job, other) => add_glance(out, plan, job, other),
        Step::Withdraw(job) => add_alone(out, plan, b"withdraw", job),
    }
}
