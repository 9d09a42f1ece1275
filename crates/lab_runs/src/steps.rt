//! Steps from the initial state on.
ghost use Rattle.std.specs.Prelude.{◌≡◌};
ghost use Rattle.std.specs.List.{All};
ghost use Rattle.legal_steps.specs.Steps.{IsStepOf};
ghost use Rattle.lab_runs.specs.Replaying.{TakesSteps};

use interleaving::{StepLine, World};
use std::alloc::Allocator;

/// Takes the steps one after another while they are legal; otherwise answers the line of the first that isn't.
pub(crate) fn take_steps<A: Allocator>(
    world: &mut World<'_, A>,
    steps: &[StepLine],
) -> Result<(), usize>
    requires { All (λ line. IsStepOf world.old.plan line.step) steps.now }
    ensures { TakesSteps world.old steps.now result world.new }
{
    match world.replay_steps(steps) {
        Ok(_) => Ok(()),
        Err((place, _)) => Err(steps[place].line),
    }
}
