//! Bottles given and asked for, all at once.
ghost use Rattle.legal_steps.specs.State.{IsOwn};
ghost use Rattle.edge_rule.specs.DeskView.{Owns};
ghost use Rattle.drinking_layer.specs.Bottles.{Served, Wanted};

use crate::bottles::{all_gifts, all_wishes};
use dining_layer::{Tried, answered};
use edge_rule::{Bench, Desk, exchange};
use edge_word::EdgeMoves;
use lab_plan::EdgeNo;
use std::alloc::Allocator;

/// Gives all bottles that may be given by the word last seen, if there are any.
pub fn serve_bottles<A: Allocator>(bench: &Bench<A>, desk: &mut Desk<A>, edge: EdgeNo) -> Tried
    requires own { Owns bench.now desk.old }
    requires edge { IsOwn desk.old.plan desk.old.job edge }
    ensures { Served desk.old edge result desk.new }
{
    let set = all_gifts(bench, desk, edge);
    if set == 0 {
        return Tried::NotLegal;
    }
    let moves = EdgeMoves {
        give_bottles: set,
        ..EdgeMoves::NONE
    };
    answered(exchange(bench, desk, edge, moves))
}

/// Asks for all bottles that may be asked for by the word last seen, if there are any.
pub fn want_bottles<A: Allocator>(bench: &Bench<A>, desk: &mut Desk<A>, edge: EdgeNo) -> Tried
    requires own { Owns bench.now desk.old }
    requires edge { IsOwn desk.old.plan desk.old.job edge }
    ensures { Wanted desk.old edge result desk.new }
{
    let set = all_wishes(bench, desk, edge);
    if set == 0 {
        return Tried::NotLegal;
    }
    let moves = EdgeMoves {
        ask_bottles: set,
        ..EdgeMoves::NONE
    };
    answered(exchange(bench, desk, edge, moves))
}
