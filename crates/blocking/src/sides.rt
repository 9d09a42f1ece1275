//! A job's end of an edge, where a round is owed as long as the job waits as in the round before it.
ghost use Rattle.std.specs.Prelude.{◌≡◌, ◌<◌, ◌++◌, length, map, IfOk, OnOk};
ghost use Rattle.std.specs.List.{All, AllZip};
ghost use Rattle.legal_steps.specs.State.{IsOwn};
ghost use Rattle.rounds.specs.Company.{first_front};
ghost use Rattle.waiting.specs.Watching.{KnowAll};
ghost use Rattle.blocking.specs.Watching.{rounds_then, block_then};
ghost use Rattle.blocking.specs.Owing.{settled, all_settled, fresh_side, sides_of, fresh_sides, cleared, settled_side, cleared_side};
ghost use Rattle.blocking.specs.Owing.{turned_to, FitsSide, SideThen};

use crate::counted::{Wait, count_rounds, fresh_blocks, wait_on};
use crate::places::add_on_edge;
use block_lines::Block;
use edge_rule::Desk;
use lab_plan::{EdgeNo, JobNo, Plan};
use std::alloc::{AllocError, Allocator, Global};
use std::marker::Model;

/// A job, one of its edges, how the job has waited there in each of the last rounds, how many these are, and what was counted of
/// those before.
#[derive(Drop)]
pub(crate) struct Side<A: Allocator = Global> {
    job: JobNo,
    edge: EdgeNo,
    wait: Wait,
    rounds: u32,
    blocks: Vec<Block, A>,
}

impl<A: Allocator> Model for Side<A> {
    ghost use Rattle.blocking.specs.Owing.{SideView};

    ghost Value = { SideView };

    ghost view = { λ s. record { job = s.job; edge = s.edge; wait = s.wait; rounds = s.rounds; blocks = s.blocks.items } };
}

/// The place, with no round counted there.
fn cleared(block: Block) -> Block
    ensures { result ≡ cleared block }
{
    Block {
        rounds: 0,
        held: 0,
        ..block
    }
}

/// Counts nothing.
fn clear(blocks: &mut [Block])
    ensures { blocks.new ≡ map cleared blocks.old }
{
    for at in 0..blocks.len() {
        blocks[at] = cleared(blocks[at]);
    }
}

impl<A: Allocator> Side<A> {
    /// Before the first round.
    fn new(alloc: A, plan: &Plan<A>, job: JobNo, edge: EdgeNo) -> Result<Side<A>, AllocError>
    where
        A: Copy,
        requires job { job < length plan.now.jobs }
        requires own { IsOwn plan.now job edge }
        ensures { IfOk result (λ side. side ≡ fresh_side plan.now job edge) }
    {
        let mut places = Vec::new(alloc);
        add_on_edge(&mut places, plan, job, edge)?;
        let blocks = fresh_blocks(alloc, plan, &places)?;
        Ok(Side {
            job,
            edge,
            wait: Wait::NONE,
            rounds: 0,
            blocks,
        })
    }

    /// Adds what is owed to the counts.
    fn settle(&mut self, plan: &Plan<A>)
        requires { FitsSide plan.now self.old }
        ensures { self.new ≡ settled_side plan.now self.old }
    {
        count_rounds(
            plan,
            self.edge,
            self.wait,
            self.rounds,
            self.blocks.as_mut_slice(),
        );
    }

    /// Goes on with the first round of another wait.
    fn turn_to(&mut self, plan: &Plan<A>, wait: Wait)
        requires { FitsSide plan.now self.old }
        ensures { self.new ≡ turned_to plan.now wait self.old }
    {
        self.settle(plan);
        self.wait = wait;
        self.rounds = 1;
    }

    /// Counts a round in which the job waits like this.
    fn count(&mut self, plan: &Plan<A>, wait: Wait)
        requires { FitsSide plan.now self.old }
        ensures { SideThen plan.now (rounds_then plan.now wait 1) self.old self.new }
    {
        if self.wait == wait {
            self.rounds = self.rounds.saturating_add(1);
            return;
        }
        self.turn_to(plan, wait);
    }

    /// Counts a round.
    fn note(&mut self, plan: &Plan<A>, desks: &[Desk<A>], before: &[u64], after: &[u64])
        requires desks { KnowAll plan.now (first_front desks.now) desks.now }
        requires before { length before.now ≡ length plan.now.jobs }
        requires after { length after.now ≡ length plan.now.jobs }
        requires fits { FitsSide plan.now self.old }
        ensures { SideThen plan.now (block_then plan.now (first_front desks.now) before.now after.now) self.old self.new }
    {
        let wait = wait_on(plan, desks, before, after, self.job, self.edge);
        self.count(plan, wait);
    }

    /// Adds its counts, with what is owed to them, and counts nothing from now on.
    fn take(&mut self, plan: &Plan<A>, out: &mut Vec<Block, A>) -> Result<(), AllocError>
        requires { FitsSide plan.now self.old }
        ensures counts { OnOk result (out.new.items ≡ out.old.items ++ settled plan.now self.old) }
        ensures cleared { OnOk result (self.new ≡ cleared_side plan.now self.old) }
    {
        self.settle(plan);
        out.extend_from_slice(&self.blocks)?;
        clear(self.blocks.as_mut_slice());
        self.rounds = 0;
        Ok(())
    }
}

/// Adds a job's ends of its edges.
pub(crate) fn add_sides<A: Allocator + Copy>(
    out: &mut Vec<Side<A>, A>,
    alloc: A,
    plan: &Plan<A>,
    job: JobNo,
) -> Result<(), AllocError>
    requires { job < length plan.now.jobs }
    ensures { OnOk result (out.new.items ≡ out.old.items ++ sides_of plan.now job) }
{
    let own = plan.edges_of(job);
    for edge in own {
        out.push(Side::new(alloc, plan, job, *edge)?)?;
    }
    Ok(())
}

/// The ends of edges of all jobs before the first round, in the order of the script.
pub(crate) fn fresh_sides<A: Allocator + Copy>(
    alloc: A,
    plan: &Plan<A>,
) -> Result<Vec<Side<A>, A>, AllocError>
    ensures { IfOk result (λ sides. sides.items ≡ fresh_sides plan.now) }
{
    let mut sides = Vec::new(alloc);
    for job in 0..plan.jobs() {
        add_sides(&mut sides, alloc, plan, JobNo(job as u8))?;
    }
    Ok(sides)
}

/// Counts a round at each place.
pub(crate) fn count_round<A: Allocator>(
    plan: &Plan<A>,
    desks: &[Desk<A>],
    before: &[u64],
    after: &[u64],
    sides: &mut [Side<A>],
)
    requires desks { KnowAll plan.now (first_front desks.now) desks.now }
    requires before { length before.now ≡ length plan.now.jobs }
    requires after { length after.now ≡ length plan.now.jobs }
    requires fit { All (FitsSide plan.now) sides.old }
    ensures { AllZip (SideThen plan.now (block_then plan.now (first_front desks.now) before.now after.now)) sides.old sides.new }
{
    for place in 0..sides.len() {
        sides[place].note(plan, desks, before, after);
    }
}

/// The counts of all places, with what is owed to them. Nothing is counted from now on.
pub(crate) fn take_counts<A: Allocator>(
    alloc: A,
    plan: &Plan<A>,
    sides: &mut [Side<A>],
) -> Result<Vec<Block, A>, AllocError>
    requires { All (FitsSide plan.now) sides.old }
    ensures counts { IfOk result (λ blocks. blocks.items ≡ all_settled plan.now sides.old) }
    ensures cleared { OnOk result (sides.new ≡ map (cleared_side plan.now) sides.old) }
{
    let mut blocks = Vec::new(alloc);
    for place in 0..sides.len() {
        sides[place].take(plan, &mut blocks)?;
    }
    Ok(blocks)
}
