//! Single moves of a fork.
ghost use Rattle.std.specs.Prelude.{◌≡◌};
ghost use Rattle.legal_steps.specs.declared.event.Event.TheVariants.{GiveFork, AskFork, Soil};
ghost use Rattle.legal_steps.specs.State.{IsOwn};
ghost use Rattle.edge_rule.specs.DeskView.{Owns};
ghost use Rattle.dining_layer.specs.Tries.{TriedTo, Dined};

use crate::answers::{Tried, answered};
use crate::forks::{may_ask, may_give, may_soil};
use edge_rule::{Bench, Desk, exchange, look};
use edge_word::EdgeMoves;
use lab_plan::EdgeNo;
use std::alloc::Allocator;

/// Gives the fork of the edge, if that is legal by the word last seen.
pub fn give<A: Allocator>(bench: &Bench<A>, desk: &mut Desk<A>, edge: EdgeNo) -> Tried
    requires own { Owns bench.now desk.old }
    requires edge { IsOwn desk.old.plan desk.old.job edge }
    ensures { TriedTo desk.old (GiveFork desk.old.job edge) edge result desk.new }
{
    if !may_give(bench, desk, edge) {
        return Tried::NotLegal;
    }
    answered(exchange(bench, desk, edge, EdgeMoves::GIVE_FORK))
}

/// Asks for the fork of the edge, if that is legal by the word last seen.
pub fn ask<A: Allocator>(bench: &Bench<A>, desk: &mut Desk<A>, edge: EdgeNo) -> Tried
    requires own { Owns bench.now desk.old }
    requires edge { IsOwn desk.old.plan desk.old.job edge }
    ensures { TriedTo desk.old (AskFork desk.old.job edge) edge result desk.new }
{
    if !may_ask(bench, desk, edge) {
        return Tried::NotLegal;
    }
    answered(exchange(bench, desk, edge, EdgeMoves::ASK_FORK))
}

/// Soils the fork of the edge, if that is legal by the word last seen.
pub fn soil<A: Allocator>(bench: &Bench<A>, desk: &mut Desk<A>, edge: EdgeNo) -> Tried
    requires own { Owns bench.now desk.old }
    requires edge { IsOwn desk.old.plan desk.old.job edge }
    ensures { TriedTo desk.old (Soil desk.old.job edge) edge result desk.new }
{
    if !may_soil(bench, desk, edge) {
        return Tried::NotLegal;
    }
    answered(exchange(bench, desk, edge, EdgeMoves::SOIL))
}

/// Looks at the edge, and then does the first that is legal of giving its fork, asking for it and soiling it.
pub fn dine<A: Allocator>(bench: &Bench<A>, desk: &mut Desk<A>, edge: EdgeNo) -> Tried
    requires own { Owns bench.now desk.old }
    requires edge { IsOwn desk.old.plan desk.old.job edge }
    ensures { Dined desk.old edge result desk.new }
{
    look(bench, desk, edge);
    if may_give(bench, desk, edge) {
        return give(bench, desk, edge);
    }
    if may_ask(bench, desk, edge) {
        return ask(bench, desk, edge);
    }
    soil(bench, desk, edge)
}
