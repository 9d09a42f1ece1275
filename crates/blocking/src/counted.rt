//! What a round adds to the counts.
ghost use Rattle.std.specs.Prelude.{◌≡◌, ◌<◌, ◌≤◌, ℕ, length, map, [], IfOk};
ghost use Rattle.std.specs.List.{All};
ghost use Rattle.lab_plan.specs.LabPlan.{edges, bottles};
ghost use Rattle.lab_plan.specs.InstrumentSets.{holds};
ghost use Rattle.legal_steps.specs.State.{IsOwn, neighbour};
ghost use Rattle.legal_steps.specs.Legal.{instrument_of};
ghost use Rattle.rounds.specs.Company.{first_front};
ghost use Rattle.blocking.specs.Blocks.{block_of, places_on};
ghost use Rattle.waiting.specs.Watching.{KnowAll};
ghost use Rattle.blocking.specs.Watching.{IsPlace, IsWait, held_across, counted_if, waited_then, rounds_then, each_by};

use crate::knowledge::{instrument_at, next_in, waited_on};
use crate::places::Place;
use block_lines::Block;
use edge_rule::Desk;
use lab_plan::{EdgeNo, JobNo, Plan, has_instrument};
use legal_steps::neighbour;
use std::alloc::{AllocError, Allocator};

/// The bottles of an edge for which its job waits in a round, and what the neighbour holds then.
#[derive(Clone, Copy, PartialEq, Eq, Debug)]
pub(crate) struct Wait {
    bottles: u32,
    held: u64,
}

impl Wait {
    /// It waits for no bottle.
    pub(crate) const NONE: Wait = Wait {
        bottles: 0,
        held: 0,
    };
}

/// A place at which no round was counted yet.
fn fresh_block<A: Allocator>(plan: &Plan<A>, place: Place) -> Block
    requires { IsPlace plan.now place }
    ensures { result ≡ block_of plan.now [] place }
{
    Block {
        job: place.job,
        neighbour: neighbour(plan, place.job, place.edge),
        instrument: plan.instrument_of(place.edge, place.bottle),
        rounds: 0,
        held: 0,
    }
}

/// The counts of the places before the first round.
pub(crate) fn fresh_blocks<A: Allocator, B: Allocator>(
    alloc: A,
    plan: &Plan<B>,
    places: &[Place],
) -> Result<Vec<Block, A>, AllocError>
    requires { All (IsPlace plan.now) places.now }
    ensures { IfOk result (λ blocks. blocks.items ≡ map (block_of plan.now []) places.now) }
{
    let mut blocks = Vec::new(alloc);
    for place in places {
        blocks.push(fresh_block(plan, *place))?;
    }
    Ok(blocks)
}

/// The count, higher by this many rounds if they count.
fn counted_if(counts: bool, rounds: u32, count: u32) -> u32
    ensures { result ≡ counted_if counts rounds count }
{
    if counts {
        count.saturating_add(rounds)
    } else {
        count
    }
}

/// What the neighbour on an edge holds when the turn of the job is over. By the turns of a round, jobs in front of it have had theirs
/// then, and those behind it haven't.
fn held_across<A: Allocator>(
    plan: &Plan<A>,
    before: &[u64],
    after: &[u64],
    job: JobNo,
    edge: EdgeNo,
) -> u64
    requires before { length before.now ≡ length plan.now.jobs }
    requires after { length after.now ≡ length plan.now.jobs }
    requires own { IsOwn plan.now job edge }
    ensures { result ≡ held_across plan.now before.now after.now job edge }
{
    let other = neighbour(plan, job, edge);
    let sets = if other.0 < job.0 { after } else { before };
    sets[other.0 as usize]
}

/// Whether a bottle's instrument is in the set of those that are held. Most jobs hold none, and then the instrument needn't be looked up.
#[tactic(auto, using(lab_plan::proofs::Bits::holds_none))]
fn is_held<A: Allocator>(plan: &Plan<A>, edge: EdgeNo, bottle: u32, held: u64) -> bool
    requires edge { edge < length (edges plan.now) }
    requires bottle { bottle < length (bottles plan.now edge) }
    ensures { result ≡ holds held (instrument_of plan.now edge bottle) }
{
    if held == 0 {
        return false;
    }
    has_instrument(held, instrument_at(plan, edge, bottle))
}

/// How a job waits on an edge in this round.
pub(crate) fn wait_on<A: Allocator>(
    plan: &Plan<A>,
    desks: &[Desk<A>],
    before: &[u64],
    after: &[u64],
    job: JobNo,
    edge: EdgeNo,
) -> Wait
    requires desks { KnowAll plan.now (first_front desks.now) desks.now }
    requires before { length before.now ≡ length plan.now.jobs }
    requires after { length after.now ≡ length plan.now.jobs }
    requires job { job < length plan.now.jobs }
    requires own { IsOwn plan.now job edge }
    ensures { IsWait plan.now (first_front desks.now) before.now after.now job edge result }
{
    let bottles = waited_on(plan, &desks[job.0 as usize], edge);
    if bottles == 0 {
        return Wait::NONE;
    }
    let held = held_across(plan, before, after, job, edge);
    Wait { bottles, held }
}

/// The counts of a place at which the job has waited in this many rounds, by what its neighbour held.
fn counted<A: Allocator>(
    plan: &Plan<A>,
    edge: EdgeNo,
    bottle: u32,
    held: u64,
    rounds: u32,
    block: Block,
) -> Block
    requires edge { edge < length (edges plan.now) }
    requires bottle { bottle < length (bottles plan.now edge) }
    ensures { result ≡ waited_then rounds held (instrument_of plan.now edge bottle) block }
{
    let is_held = is_held(plan, edge, bottle, held);
    Block {
        rounds: counted_if(true, rounds, block.rounds),
        held: counted_if(is_held, rounds, block.held),
        ..block
    }
}

/// Counts this many rounds, in each of which a job waits like this on an edge, at the bottles of the edge.
pub(crate) fn count_rounds<A: Allocator>(
    plan: &Plan<A>,
    edge: EdgeNo,
    wait: Wait,
    rounds: u32,
    blocks: &mut [Block],
)
    requires edge { edge < length (edges plan.now) }
    requires room { length (bottles plan.now edge) ≤ length blocks.old }
    ensures { (j : ℕ) → blocks.new ≡ each_by (rounds_then plan.now wait rounds) (places_on plan.now j edge) blocks.old }
{
    let bottles = plan.bottles(edge);
    let mut bottle = next_in(wait.bottles, 0, bottles);
    while bottle < bottles {
        let at = bottle as usize;
        blocks[at] = counted(plan, edge, bottle, wait.held, rounds, blocks[at]);
        bottle = next_in(wait.bottles, bottle + 1, bottles);
    }
}
