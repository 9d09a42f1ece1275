//! One move on an edge, in one exchange.
ghost use Rattle.legal_steps.specs.declared.event.Event.TheVariants.{GiveFork, AskFork, Soil, GiveBottles, AskBottles};
ghost use Rattle.legal_steps.specs.Legal.{May};
ghost use Rattle.edge_rule.specs.DeskView.{Owns, known};
ghost use Rattle.edge_rule.specs.Made.{Made};

use crate::bench::Bench;
use crate::calls::Stepped;
use crate::desk::Desk;
use crate::steps::exchange;
use edge_word::EdgeMoves;
use lab_plan::EdgeNo;
use std::alloc::Allocator;

/// Sends the request token of the edge's fork to the other end.
pub fn ask_fork<A: Allocator>(bench: &Bench<A>, desk: &mut Desk<A>, edge: EdgeNo) -> Stepped
    requires own { Owns bench.now desk.old }
    requires may { May desk.old.plan (known desk.old) (AskFork desk.old.job edge) }
    ensures { Made desk.old (AskFork desk.old.job edge) edge result desk.new }
{
    exchange(bench, desk, edge, EdgeMoves::ASK_FORK)
}

/// Sends the fork of the edge to the other end, clean.
pub fn give_fork<A: Allocator>(bench: &Bench<A>, desk: &mut Desk<A>, edge: EdgeNo) -> Stepped
    requires own { Owns bench.now desk.old }
    requires may { May desk.old.plan (known desk.old) (GiveFork desk.old.job edge) }
    ensures { Made desk.old (GiveFork desk.old.job edge) edge result desk.new }
{
    exchange(bench, desk, edge, EdgeMoves::GIVE_FORK)
}

/// Makes the fork of the edge dirty.
pub fn soil<A: Allocator>(bench: &Bench<A>, desk: &mut Desk<A>, edge: EdgeNo) -> Stepped
    requires own { Owns bench.now desk.old }
    requires may { May desk.old.plan (known desk.old) (Soil desk.old.job edge) }
    ensures { Made desk.old (Soil desk.old.job edge) edge result desk.new }
{
    exchange(bench, desk, edge, EdgeMoves::SOIL)
}

/// Sends the request tokens of a set of bottles to the other end, all at once.
pub fn ask_bottles<A: Allocator>(
    bench: &Bench<A>,
    desk: &mut Desk<A>,
    edge: EdgeNo,
    set: u32,
) -> Stepped
    requires own { Owns bench.now desk.old }
    requires may { May desk.old.plan (known desk.old) (AskBottles desk.old.job edge set) }
    ensures { Made desk.old (AskBottles desk.old.job edge set) edge result desk.new }
{
    let moves = EdgeMoves {
        ask_bottles: set,
        ..EdgeMoves::NONE
    };
    exchange(bench, desk, edge, moves)
}

/// Sends a set of bottles to the other end, all at once.
pub fn give_bottles<A: Allocator>(
    bench: &Bench<A>,
    desk: &mut Desk<A>,
    edge: EdgeNo,
    set: u32,
) -> Stepped
    requires own { Owns bench.now desk.old }
    requires may { May desk.old.plan (known desk.old) (GiveBottles desk.old.job edge set) }
    ensures { Made desk.old (GiveBottles desk.old.job edge set) edge result desk.new }
{
    let moves = EdgeMoves {
        give_bottles: set,
        ..EdgeMoves::NONE
    };
    exchange(bench, desk, edge, moves)
}
