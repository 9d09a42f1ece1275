//! What a session's tooltip says of those who kept it waiting.
ghost use Rattle.std.specs.Prelude.{◌≡◌, ◌++◌, OnOk};
ghost use Rattle.std.specs.List.{All, flat_map};
ghost use Rattle.block_lines.specs.Text.{IsOfPlan};
ghost use Rattle.round_picture.specs.Keepers.{rounds_word, keeper_text, further_text, keepers_text};

use crate::scale::add_place;
use block_lines::Block;
use lab_plan::Plan;
use std::alloc::{AllocError, Allocator};

/// What is written between a number of rounds and how many of them the instrument was used in.
fn rounds_word(rounds: u32) -> &'static [u8]
    ensures { result.now ≡ rounds_word rounds }
{
    if rounds == 1 {
        b" round, used "
    } else {
        b" rounds, used "
    }
}

/// Adds a neighbour, for how many rounds it kept an instrument, and in how many of these it used it.
#[tactic(auto, unfolding(crate::specs::Keepers::keeper_text))]
fn add_keeper<A: Allocator, B: Allocator>(
    out: &mut Vec<u8, A>,
    plan: &Plan<B>,
    block: &Block,
) -> Result<(), AllocError>
    requires { IsOfPlan plan.now block.now }
    ensures { OnOk result (out.new.items ≡ out.old.items ++ keeper_text plan.now block.now) }
{
    out.extend_from_slice(b" by ")?;
    out.extend_from_slice(plan.job_name(block.neighbour))?;
    out.extend_from_slice(b" (")?;
    out.extend_from_slice(plan.instrument_name(block.instrument))?;
    add_place(out, b") ", u64::from(block.rounds))?;
    add_place(out, rounds_word(block.rounds), u64::from(block.held))
}

/// Adds the keepers behind the first.
fn add_further<A: Allocator, B: Allocator>(
    out: &mut Vec<u8, A>,
    plan: &Plan<B>,
    blocks: &[Block],
) -> Result<(), AllocError>
    requires { All (IsOfPlan plan.now) blocks.now }
    ensures { OnOk result (out.new.items ≡ out.old.items ++ flat_map (further_text plan.now) blocks.now) }
{
    for block in blocks {
        out.extend_from_slice(b";")?;
        add_keeper(out, plan, block)?;
    }
    Ok(())
}

/// Adds who kept a session waiting, if anybody did.
pub(crate) fn add_keepers<A: Allocator, B: Allocator>(
    out: &mut Vec<u8, A>,
    plan: &Plan<B>,
    blocks: &[Block],
) -> Result<(), AllocError>
    requires { All (IsOfPlan plan.now) blocks.now }
    ensures { OnOk result (out.new.items ≡ out.old.items ++ keepers_text plan.now blocks.now) }
{
    match blocks {
        [] => Ok(()),
        [first, further @ ..] => {
            out.extend_from_slice(b"; kept waiting")?;
            add_keeper(out, plan, first)?;
            add_further(out, plan, further)
        }
    }
}
