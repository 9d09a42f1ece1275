//! The moves that are legal now.
ghost use Rattle.std.specs.Prelude.{IfOk};
ghost use Rattle.std.specs.List.{All};
ghost use Rattle.legal_steps.specs.Steps.{IsStepOf};
ghost use Rattle.legal_moves.specs.Moves.{AreLegalMoves, all_moves, Keeps, IsLegalNow};

use crate::candidates::all_moves;
use interleaving::World;
use legal_steps::Step;
use std::alloc::{AllocError, Allocator};

/// The moves of all jobs that are legal now: job by job, in the order of `all_moves`.
///
/// A move is any step but a look or a glance, which are always legal, and bottles are asked for and given one at a
/// time: a step with more bottles is legal exactly if each of these is. Memory is taken in proportion to all moves.
pub fn legal_moves<A: Allocator + Copy, B: Allocator>(
    alloc: A,
    world: &World<'_, B>,
) -> Result<Vec<Step, A>, AllocError>
    ensures legal { IfOk result (λ moves. AreLegalMoves world.now.plan world.now.state moves.items) }
    ensures of_plan { IfOk result (λ moves. All (IsStepOf world.now.plan) moves.items) }
{
    let all = all_moves(alloc, world.plan())?;
    let mut moves = Vec::new(alloc);
    for step in &all {
        let event = world.event_of(step);
        if world.enabled(event) {
            moves.push(*step)?;
        }
    }
    Ok(moves)
}
