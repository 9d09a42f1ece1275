//! The text of events.
ghost use Rattle.std.specs.Prelude.{◌≡◌, ◌++◌, [], map, codes, OnOk, IfOk};
ghost use Rattle.std.specs.List.{All};
ghost use Rattle.legal_steps.specs.Steps.{IsStepOf};
ghost use Rattle.round_trace.specs.StepsOf.{step_of};
ghost use Rattle.written_steps.specs.StepLists.{step_line};
ghost use Rattle.journal_texts.specs.Texts.{lines_text, sum_line, summed, batch_text, journal_text};

use crate::digits::digits_of;
use lab_plan::Plan;
use legal_steps::Event;
use round_trace::step_of;
use sha2::{Digest, Sha256};
use std::alloc::{AllocError, Allocator};
use step_texts::add_step;

/// Adds the step of an event, on a line of its own.
#[tactic(auto, unfolding(written_steps::specs::StepLists::step_line))]
fn add_line<A: Allocator, B: Allocator>(
    out: &mut Vec<u8, B>,
    plan: &Plan<A>,
    event: &Event,
) -> Result<(), AllocError>
    requires { IsStepOf plan.now (step_of event.now) }
    ensures { OnOk result (out.new.items ≡ out.old.items ++ step_line plan.now (step_of event.now)) }
{
    add_step(out, plan, &step_of(event))?;
    out.extend_from_slice(b"\n")
}

/// The steps of events, one a line.
fn lines_of<A: Allocator, B: Allocator>(
    alloc: B,
    plan: &Plan<A>,
    events: &[Event],
) -> Result<Vec<u8, B>, AllocError>
    requires { All (λ event. IsStepOf plan.now (step_of event)) events.now }
    ensures { IfOk result (λ out. out.items ≡ lines_text plan.now events.now) }
{
    let mut out = Vec::new(alloc);
    for event in events {
        add_line(&mut out, plan, event)?;
    }
    Ok(out)
}

/// Adds the line with the sum of a text.
#[tactic(auto, unfolding(crate::specs::Texts::sum_line))]
fn add_sum<A: Allocator>(out: &mut Vec<u8, A>, text: &[u8]) -> Result<(), AllocError>
    ensures { OnOk result (out.new.items ≡ out.old.items ++ (sum_line text.now ++ codes "\n")) }
{
    let digits = digits_of(Sha256::digest(text));
    out.extend_from_slice(b"#sum ")?;
    out.extend_from_slice(&digits)?;
    out.extend_from_slice(b"\n")
}

/// Lines between a line `#steps` and the line with their sum.
pub(crate) fn summed<A: Allocator>(alloc: A, lines: &[u8]) -> Result<Vec<u8, A>, AllocError>
    ensures { IfOk result (λ out. out.items ≡ summed lines.now) }
{
    let mut out = Vec::new(alloc);
    out.extend_from_slice(b"#steps\n")?;
    out.extend_from_slice(lines)?;
    add_sum(&mut out, lines)?;
    Ok(out)
}

/// The text of some events.
fn batch<A: Allocator, B: Allocator + Copy>(
    alloc: B,
    plan: &Plan<A>,
    events: &[Event],
) -> Result<Vec<u8, B>, AllocError>
    requires { All (λ event. IsStepOf plan.now (step_of event)) events.now }
    ensures { IfOk result (λ out. out.items ≡ batch_text plan.now events.now) }
{
    let lines = lines_of(alloc, plan, events)?;
    summed(alloc, &lines)
}

/// The text that a journal gets of these events: none, if there are none.
pub fn journal_text<A: Allocator, B: Allocator + Copy>(
    alloc: B,
    plan: &Plan<A>,
    events: &[Event],
) -> Result<Vec<u8, B>, AllocError>
    requires { All (λ event. IsStepOf plan.now (step_of event)) events.now }
    ensures { IfOk result (λ out. out.items ≡ journal_text plan.now events.now) }
{
    if events.is_empty() {
        return Ok(Vec::new(alloc));
    }
    batch(alloc, plan, events)
}
