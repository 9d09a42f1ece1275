//! The texts that go out.
ghost use Rattle.std.specs.Prelude.{◌≡◌, ◌++◌, codes, map, IfOk, OnOk};
ghost use Rattle.std.specs.List.{All};
ghost use Rattle.lab_plan.specs.Upgrade.{script_text};
ghost use Rattle.legal_steps.specs.Steps.{IsStepOf};
ghost use Rattle.written_steps.specs.StepLists.{step_line, step_lines};
ghost use Rattle.report.specs.Taken.{Sends};

use interleaving::StepLine;
use lab_plan::Plan;
use lab_program::{pass_on, send_text};
use report::{Sink, WriteFault, offer, write_script};
use std::alloc::{AllocError, Allocator};
use step_texts::add_step;

/// Adds a step, on a line of its own.
#[tactic(auto, unfolding(written_steps::specs::StepLists::step_line))]
fn add_line<A: Allocator, B: Allocator>(
    out: &mut Vec<u8, B>,
    plan: &Plan<A>,
    line: &StepLine,
) -> Result<(), AllocError>
    requires { IsStepOf plan.now line.now.step }
    ensures { OnOk result (out.new.items ≡ out.old.items ++ step_line plan.now line.now.step) }
{
    add_step(out, plan, &line.step)?;
    out.extend_from_slice(b"\n")
}

/// The steps, one a line.
pub(crate) fn lines_of<A: Allocator, B: Allocator>(
    alloc: B,
    plan: &Plan<A>,
    steps: &[StepLine],
) -> Result<Vec<u8, B>, AllocError>
    requires { All (λ line. IsStepOf plan.now line.step) steps.now }
    ensures { IfOk result (λ out. out.items ≡ step_lines plan.now (map (λ line. line.step) steps.now)) }
{
    let mut out = Vec::new(alloc);
    for line in steps {
        add_line(&mut out, plan, line)?;
    }
    Ok(out)
}

/// Sends the script of version 2 that means the plan.
pub(crate) fn send_script<A: Allocator, W: Sink>(
    plan: &Plan<A>,
    sink: &mut W,
) -> Result<(), WriteFault>
    ensures { Sends W.taken W.failures sink.old sink.new (script_text plan.now) result }
{
    match write_script(plan, sink) {
        Ok(()) => pass_on(sink),
        Err(fault) => Err(fault),
    }
}

/// Sends this script, a line `steps`, and some lines.
pub(crate) fn send_steps<A: Allocator, W: Sink>(
    plan: &Plan<A>,
    lines: &[u8],
    sink: &mut W,
) -> Result<(), WriteFault>
    ensures { Sends W.taken W.failures sink.old sink.new (script_text plan.now ++ codes "steps\n" ++ lines.now) result }
{
    write_script(plan, sink)?;
    offer(sink, b"steps\n")?;
    send_text(lines, sink)
}
