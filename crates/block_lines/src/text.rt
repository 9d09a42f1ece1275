//! Blocks in words.
ghost use Rattle.std.specs.Prelude.{◌≡◌, ◌<◌, ◌++◌, length, decimal, OnOk};
ghost use Rattle.std.specs.List.{All, flat_map};
ghost use Rattle.block_lines.specs.Ranking.{count_at};
ghost use Rattle.block_lines.specs.Sums.{held_on};
ghost use Rattle.block_lines.specs.Text.{IsOfPlan, block_at, counts_text, block_line, instrument_line, blocks_text, ending, rounds_line};

use crate::block::Block;
use crate::ranks::ranked;
use crate::sums::{held_on, instrument_rounds, rounds_of};
use itoa::Buffer;
use lab_plan::{InstrumentNo, Plan};
use std::alloc::{AllocError, Allocator};

/// Adds a word and a count.
fn add_count<A: Allocator>(out: &mut Vec<u8, A>, word: &[u8], count: u128) -> Result<(), AllocError>
    ensures { OnOk result (out.new.items ≡ out.old.items ++ word.now ++ decimal count) }
{
    out.extend_from_slice(word)?;
    out.extend_from_slice(Buffer::new().format(count).as_bytes())
}

fn ending(retired: bool) -> &'static [u8]
    ensures { result.now ≡ ending retired }
{
    if retired {
        b" finished\n"
    } else {
        b" unfinished\n"
    }
}

/// Adds the first line.
#[tactic(auto, unfolding(crate::specs::Text::rounds_line))]
fn add_rounds<A: Allocator>(
    out: &mut Vec<u8, A>,
    number: u32,
    retired: bool,
) -> Result<(), AllocError>
    ensures { OnOk result (out.new.items ≡ out.old.items ++ rounds_line number retired) }
{
    add_count(out, b"rounds ", u128::from(number))?;
    out.extend_from_slice(ending(retired))
}

/// Adds how often an instrument was waited for and held, and ends the line.
#[tactic(auto, unfolding(crate::specs::Text::counts_text))]
fn add_counts<A: Allocator>(
    out: &mut Vec<u8, A>,
    word: &[u8],
    rounds: u128,
    held: u128,
) -> Result<(), AllocError>
    ensures { OnOk result (out.new.items ≡ out.old.items ++ counts_text word.now rounds held) }
{
    add_count(out, word, rounds)?;
    add_count(out, b" held ", held)?;
    out.extend_from_slice(b"\n")
}

/// The line of a block.
#[tactic(auto, unfolding(crate::specs::Text::block_line))]
fn add_block<A: Allocator, B: Allocator>(
    out: &mut Vec<u8, A>,
    plan: &Plan<B>,
    block: &Block,
) -> Result<(), AllocError>
    requires { IsOfPlan plan.now block.now }
    ensures { OnOk result (out.new.items ≡ out.old.items ++ block_line plan.now block.now) }
{
    out.extend_from_slice(b"blocked ")?;
    out.extend_from_slice(plan.job_name(block.job))?;
    out.extend_from_slice(b" by ")?;
    out.extend_from_slice(plan.job_name(block.neighbour))?;
    out.extend_from_slice(b" on ")?;
    out.extend_from_slice(plan.instrument_name(block.instrument))?;
    add_counts(
        out,
        b" rounds ",
        u128::from(block.rounds),
        u128::from(block.held),
    )
}

/// The line of an instrument.
#[tactic(auto, unfolding(crate::specs::Text::instrument_line))]
fn add_instrument<A: Allocator, B: Allocator>(
    out: &mut Vec<u8, A>,
    plan: &Plan<B>,
    instrument: InstrumentNo,
    rounds: u128,
    held: u128,
) -> Result<(), AllocError>
    requires { instrument < length plan.now.instruments }
    ensures { OnOk result (out.new.items ≡ out.old.items ++ instrument_line plan.now instrument rounds held) }
{
    out.extend_from_slice(b"instrument ")?;
    out.extend_from_slice(plan.instrument_name(instrument))?;
    add_counts(out, b" blocked ", rounds, held)
}

/// The lines of the blocks at these places.
fn add_all_blocks<A: Allocator, B: Allocator>(
    out: &mut Vec<u8, A>,
    plan: &Plan<B>,
    blocks: &[Block],
    order: &[usize],
) -> Result<(), AllocError>
    requires fit { All (IsOfPlan plan.now) blocks.now }
    requires inside { All (λ place. place < length blocks.now) order.now }
    ensures { OnOk result (out.new.items ≡ out.old.items ++ flat_map (λ place. block_line plan.now (block_at blocks.now place)) order.now) }
{
    for place in order {
        add_block(out, plan, &blocks[*place])?;
    }
    Ok(())
}

/// The lines of the instruments with these numbers, by the rounds of each.
fn add_all_instruments<A: Allocator, B: Allocator>(
    out: &mut Vec<u8, A>,
    plan: &Plan<B>,
    blocks: &[Block],
    counts: &[u128],
    order: &[usize],
) -> Result<(), AllocError>
    requires counts { length counts.now ≡ length plan.now.instruments }
    requires inside { All (λ place. place < length counts.now) order.now }
    ensures { OnOk result (out.new.items ≡ out.old.items
        ++ flat_map (λ place. instrument_line plan.now place (count_at counts.now place) (held_on blocks.now place)) order.now) }
{
    for place in order {
        let _ = plan.instruments();
        let instrument = InstrumentNo(*place as u8);
        let held = held_on(blocks, instrument);
        add_instrument(out, plan, instrument, counts[*place], held)?;
    }
    Ok(())
}

/// Adds what is told of the blocks of a run of this many rounds, after which all jobs were retired or not: those with rounds,
/// largest first, and the instruments that were waited for, largest first.
///
/// Unless an allocation fails, the text is added whole. It takes time by the square of the blocks, which are in the order of
/// the script and 27776 at most.
#[tactic(auto, unfolding(crate::specs::Text::blocks_text))]
pub fn add_blocks<S: Allocator + Copy, A: Allocator, B: Allocator>(
    alloc: S,
    out: &mut Vec<u8, A>,
    plan: &Plan<B>,
    number: u32,
    retired: bool,
    blocks: &[Block],
) -> Result<(), AllocError>
    requires { All (IsOfPlan plan.now) blocks.now }
    ensures { OnOk result (out.new.items ≡ out.old.items ++ blocks_text plan.now number retired blocks.now) }
{
    let counts = rounds_of(alloc, blocks)?;
    let order = ranked(alloc, &counts)?;
    let instruments = instrument_rounds(alloc, blocks, plan.instruments())?;
    let instrument_order = ranked(alloc, &instruments)?;
    add_rounds(out, number, retired)?;
    add_all_blocks(out, plan, blocks, &order)?;
    add_all_instruments(out, plan, blocks, &instruments, &instrument_order)
}
