//! The blocks with most rounds.
ghost use Rattle.std.specs.Prelude.{◌≡◌, ◌<◌, length, map, take, IfOk};
ghost use Rattle.std.specs.List.{All};
ghost use Rattle.block_lines.specs.Largest.{largest_three};
ghost use Rattle.block_lines.specs.Text.{block_at};

use crate::block::Block;
use crate::ranks::ranked;
use crate::sums::rounds_of;
use std::alloc::{AllocError, Allocator};

/// The blocks at the first three of these places.
fn first_three<A: Allocator>(
    alloc: A,
    blocks: &[Block],
    order: &[usize],
) -> Result<Vec<Block, A>, AllocError>
    requires { All (λ place. place < length blocks.now) order.now }
    ensures { IfOk result (λ few. few.items ≡ map (block_at blocks.now) (take 3 order.now)) }
{
    let mut few = Vec::new(alloc);
    for position in 0..3usize {
        if position < order.len() {
            few.push(blocks[order[position]])?;
        }
    }
    Ok(few)
}

/// The three blocks with most rounds, largest first, and equal ones in their order. Those without rounds are left out.
pub fn largest_three<A: Allocator + Copy>(
    alloc: A,
    blocks: &[Block],
) -> Result<Vec<Block, A>, AllocError>
    ensures { IfOk result (λ few. few.items ≡ largest_three blocks.now) }
{
    let counts = rounds_of(alloc, blocks)?;
    let order = ranked(alloc, &counts)?;
    first_three(alloc, blocks, &order)
}
