//! The moves that are legal, in words.
ghost use Rattle.std.specs.Prelude.{◌≡◌, ◌++◌, OnOk};
ghost use Rattle.std.specs.List.{All};
ghost use Rattle.legal_steps.specs.Steps.{IsStepOf};
ghost use Rattle.explaining.specs.MoveTexts.{move_line, moves_text};

use lab_plan::Plan;
use legal_steps::Step;
use std::alloc::{AllocError, Allocator};
use step_texts::add_step;

/// A step on a line of its own.
#[tactic(auto, unfolding(crate::specs::MoveTexts::move_line))]
fn add_move<A: Allocator, B: Allocator>(
    out: &mut Vec<u8, A>,
    plan: &Plan<B>,
    step: &Step,
) -> Result<(), AllocError>
    requires { IsStepOf plan.now step.now }
    ensures { OnOk result (out.new.items ≡ out.old.items ++ move_line plan.now step.now) }
{
    out.extend_from_slice(b"  ")?;
    add_step(out, plan, step)?;
    out.extend_from_slice(b"\n")
}

/// The moves, a line each.
#[tactic(auto, unfolding(crate::specs::MoveTexts::moves_text))]
pub(crate) fn add_moves<A: Allocator, B: Allocator>(
    out: &mut Vec<u8, A>,
    plan: &Plan<B>,
    moves: &[Step],
) -> Result<(), AllocError>
    requires { All (IsStepOf plan.now) moves.now }
    ensures { OnOk result (out.new.items ≡ out.old.items ++ moves_text plan.now moves.now) }
{
    out.extend_from_slice(b"legal now, besides looks and glances:\n")?;
    for step in moves {
        add_move(out, plan, step)?;
    }
    Ok(())
}
