//! Counts of blocks, and their sums by instrument.
ghost use Rattle.std.specs.Prelude.{◌≡◌, ◌≤◌, ◌*◌, map, length, IfOk};
ghost use Rattle.std.specs.List.{sum_by, range_with_len};
ghost use Rattle.block_lines.specs.Sums.{rounds_of, rounds_if_on, held_if_on, rounds_on, held_on};

use crate::block::Block;
use lab_plan::InstrumentNo;
use std::alloc::{AllocError, Allocator};

/// The rounds of each block.
pub(crate) fn rounds_of<A: Allocator>(
    alloc: A,
    blocks: &[Block],
) -> Result<Vec<u128, A>, AllocError>
    ensures { IfOk result (λ counts. counts.items ≡ map rounds_of blocks.now) }
{
    let mut counts = Vec::new(alloc);
    for block in blocks {
        counts.push(u128::from(block.rounds))?;
    }
    Ok(counts)
}

/// How many rounds the instrument was waited for, in all blocks.
fn rounds_on(blocks: &[Block], instrument: InstrumentNo) -> u128
    ensures { result ≡ rounds_on blocks.now instrument }
{
    let mut total = 0u128;
    for block in blocks {
        if block.instrument == instrument {
            total += u128::from(block.rounds);
        }
    }
    total
}

/// In how many of them the neighbour held it.
pub(crate) fn held_on(blocks: &[Block], instrument: InstrumentNo) -> u128
    ensures { result ≡ held_on blocks.now instrument }
{
    let mut total = 0u128;
    for block in blocks {
        if block.instrument == instrument {
            total += u128::from(block.held);
        }
    }
    total
}

/// How many rounds each of this many instruments was waited for.
pub(crate) fn instrument_rounds<A: Allocator>(
    alloc: A,
    blocks: &[Block],
    instruments: usize,
) -> Result<Vec<u128, A>, AllocError>
    requires { instruments ≤ 56 }
    ensures { IfOk result (λ counts. counts.items ≡ map (rounds_on blocks.now) (range_with_len 0 instruments)) }
{
    let mut counts = Vec::new(alloc);
    for instrument in 0..instruments {
        counts.push(rounds_on(blocks, InstrumentNo(instrument as u8)))?;
    }
    Ok(counts)
}
