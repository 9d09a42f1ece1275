//! What is said of a list of steps.
ghost use Rattle.std.specs.Prelude.{◌≡◌, ◌++◌, decimal, map, IfOk, OnOk};
ghost use Rattle.std.specs.List.{All};
ghost use Rattle.legal_steps.specs.Legal.{May};
ghost use Rattle.legal_steps.specs.Steps.{IsStepOf, event_of};
ghost use Rattle.explaining.specs.CauseTexts.{NamesWithin};
ghost use Rattle.explaining.specs.Explanations.{line_head, refusal_line, end_line, jobs_text, TellsStep, TellsEnd, Tells};

use crate::causes::{add_cause, job_of};
use crate::moves::add_moves;
use crate::states::add_job_state;
use interleaving::World;
use itoa::Buffer;
use lab_plan::{JobNo, Plan};
use legal_moves::legal_moves;
use legal_steps::StepLine;
use refused_steps::{Cause, why_not};
use std::alloc::{AllocError, Allocator};
use step_texts::add_step;

/// An explanation: its text, and the line of the step that isn't legal, if there is one.
#[derive(Drop)]
pub struct Explanation<A: Allocator> {
    pub text: Vec<u8, A>,
    pub refused: Option<usize>,
}

fn add_count<A: Allocator>(out: &mut Vec<u8, A>, count: usize) -> Result<(), AllocError>
    ensures { OnOk result (out.new.items ≡ out.old.items ++ decimal count) }
{
    out.extend_from_slice(Buffer::new().format(count).as_bytes())
}

#[tactic(auto, unfolding(crate::specs::Explanations::line_head))]
fn add_line_head<A: Allocator>(out: &mut Vec<u8, A>, line: usize) -> Result<(), AllocError>
    ensures { OnOk result (out.new.items ≡ out.old.items ++ line_head line) }
{
    out.extend_from_slice(b"line ")?;
    add_count(out, line)?;
    out.extend_from_slice(b": `")
}

/// ``line N: `STEP` is not legal: CAUSE``.
#[tactic(auto, unfolding(crate::specs::Explanations::refusal_line))]
fn add_refusal_line<A: Allocator, B: Allocator>(
    out: &mut Vec<u8, A>,
    plan: &Plan<B>,
    line: &StepLine,
    cause: Cause,
) -> Result<(), AllocError>
    requires step { IsStepOf plan.now line.now.step }
    requires names { NamesWithin plan.now line.now.step cause }
    ensures { OnOk result (out.new.items ≡ out.old.items ++ refusal_line plan.now line.now.line line.now.step cause) }
{
    add_line_head(out, line.line)?;
    add_step(out, plan, &line.step)?;
    out.extend_from_slice(b"` is not legal: ")?;
    add_cause(out, plan, &line.step, cause)?;
    out.extend_from_slice(b"\n")?;
    Ok(())
}

/// Tells of a step that isn't legal now.
fn tell_step<A: Allocator + Copy, B: Allocator>(
    alloc: A,
    world: &World<'_, B>,
    line: &StepLine,
) -> Result<Vec<u8, A>, AllocError>
    requires step { IsStepOf world.now.plan line.now.step }
    requires refused { ¬ May world.now.plan world.now.state (event_of world.now.state line.now.step) }
    ensures { IfOk result (λ text. TellsStep world.now.plan world.now.state line.now text.items) }
{
    let Some(cause) = why_not(world, &world.event_of(&line.step)) else {
        unreachable!()
    };
    let moves = legal_moves(alloc, world)?;
    let mut out = Vec::new(alloc);
    add_refusal_line(&mut out, world.plan(), line, cause)?;
    add_job_state(&mut out, world, job_of(&line.step))?;
    add_moves(&mut out, world.plan(), &moves)?;
    Ok(out)
}

#[tactic(auto, unfolding(crate::specs::Explanations::end_line))]
fn add_end_line<A: Allocator>(out: &mut Vec<u8, A>, steps: usize) -> Result<(), AllocError>
    ensures { OnOk result (out.new.items ≡ out.old.items ++ end_line steps) }
{
    out.extend_from_slice(b"legal steps: ")?;
    add_count(out, steps)?;
    out.extend_from_slice(b", all\n")
}

/// How each job and its edges are.
fn add_jobs<A: Allocator, B: Allocator>(
    out: &mut Vec<u8, A>,
    world: &World<'_, B>,
) -> Result<(), AllocError>
    ensures { OnOk result (out.new.items ≡ out.old.items ++ jobs_text world.now.plan world.now.state) }
{
    for job in 0..world.plan().jobs() {
        add_job_state(out, world, JobNo(job as u8))?;
    }
    Ok(())
}

/// Describes the state after this many steps.
fn tell_end<A: Allocator + Copy, B: Allocator>(
    alloc: A,
    world: &World<'_, B>,
    steps: usize,
) -> Result<Vec<u8, A>, AllocError>
    ensures { IfOk result (λ text. TellsEnd world.now.plan world.now.state steps text.items) }
{
    let moves = legal_moves(alloc, world)?;
    let mut out = Vec::new(alloc);
    add_end_line(&mut out, steps)?;
    add_jobs(&mut out, world)?;
    add_moves(&mut out, world.plan(), &moves)?;
    Ok(out)
}

/// Takes the steps one after another from the initial state, and explains the first that isn't legal when its turn comes:
/// which part of its guard fails, how its job and the job's edges are there, and which moves of any job are legal there.
/// If all are legal, it says the same of the state after them, for all jobs.
pub fn explain<A: Allocator + Copy>(
    alloc: A,
    plan: &Plan<A>,
    lines: &[StepLine],
) -> Result<Explanation<A>, AllocError>
    requires { All (λ line. IsStepOf plan.now line.step) lines.now }
    ensures { IfOk result (λ told. Tells plan.now lines.now told.refused told.text.items) }
{
    let Ok(mut world) = World::opening(alloc, plan) else {
        return Err(AllocError);
    };
    match world.replay_steps(lines) {
        Ok(count) => Ok(Explanation {
            text: tell_end(alloc, &world, count)?,
            refused: None,
        }),
        Err((place, _)) => {
            let line = &lines[place];
            Ok(Explanation {
                text: tell_step(alloc, &world, line)?,
                refused: Some(line.line),
            })
        }
    }
}
