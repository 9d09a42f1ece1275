//! Which fork moves are legal on an edge.
ghost use Rattle.std.specs.Prelude.{◌≡◌, ◌↔◌, IsTrue};
ghost use Rattle.legal_steps.specs.declared.event.Event.TheVariants.{GiveFork, AskFork, Soil};
ghost use Rattle.legal_steps.specs.State.{IsOwn};
ghost use Rattle.legal_steps.specs.Legal.{May};
ghost use Rattle.edge_rule.specs.DeskView.{Owns, known};
ghost use Rattle.turns.specs.Due.{AreForkMoves, forks_alone};
ghost use Rattle.dining_layer.specs.Forks.{AreForksDue};

use crate::edges::at_edge;
use edge_rule::{Bench, Desk};
use edge_word::EdgeMoves;
use lab_plan::EdgeNo;
use legal_steps::{Dining, EdgeState, End};
use std::alloc::Allocator;

/// The fork moves that are due at this end of an edge that was seen so.
pub fn due_forks(dining: Dining, here: End, seen: EdgeState) -> EdgeMoves
    ensures { AreForksDue dining here seen result }
{
    let give_fork = seen.gives_fork(here, dining);
    let left = if give_fork { seen.fork_given() } else { seen };
    EdgeMoves {
        give_fork,
        give_bottles: 0,
        ask_fork: left.wants_fork(here, dining),
        ask_bottles: 0,
        soil: left.soils(here, dining),
    }
}

/// Every legal fork move on an edge, each legal after the ones before it.
pub fn fork_moves<A: Allocator>(bench: &Bench<A>, desk: &Desk<A>, edge: EdgeNo) -> EdgeMoves
    requires own { Owns bench.now desk.now }
    requires edge { IsOwn desk.now.plan desk.now.job edge }
    ensures due { AreForkMoves desk.now.plan (known desk.now) desk.now.job edge result }
    ensures alone { result ≡ forks_alone result }
{
    let at = at_edge(bench, desk, edge);
    due_forks(at.phase.dining, End::Higher, at.mine)
}

/// Whether the fork may be given, by the word last seen.
pub fn may_give<A: Allocator>(bench: &Bench<A>, desk: &Desk<A>, edge: EdgeNo) -> bool
    requires own { Owns bench.now desk.now }
    requires edge { IsOwn desk.now.plan desk.now.job edge }
    ensures { IsTrue result ↔ May desk.now.plan (known desk.now) (GiveFork desk.now.job edge) }
{
    let at = at_edge(bench, desk, edge);
    at.seen.gives_fork(at.here, at.phase.dining)
}

/// Whether the fork may be asked for, by the word last seen.
pub fn may_ask<A: Allocator>(bench: &Bench<A>, desk: &Desk<A>, edge: EdgeNo) -> bool
    requires own { Owns bench.now desk.now }
    requires edge { IsOwn desk.now.plan desk.now.job edge }
    ensures { IsTrue result ↔ May desk.now.plan (known desk.now) (AskFork desk.now.job edge) }
{
    let at = at_edge(bench, desk, edge);
    at.seen.wants_fork(at.here, at.phase.dining)
}

/// Whether the fork may be soiled, by the word last seen.
pub fn may_soil<A: Allocator>(bench: &Bench<A>, desk: &Desk<A>, edge: EdgeNo) -> bool
    requires own { Owns bench.now desk.now }
    requires edge { IsOwn desk.now.plan desk.now.job edge }
    ensures { IsTrue result ↔ May desk.now.plan (known desk.now) (Soil desk.now.job edge) }
{
    let at = at_edge(bench, desk, edge);
    at.seen.soils(at.here, at.phase.dining)
}
