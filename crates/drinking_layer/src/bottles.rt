//! The greatest legal sets of bottles.
ghost use Rattle.std.specs.Prelude.{◌≡◌, length};
ghost use Rattle.lab_plan.specs.LabPlan.{bottles};
ghost use Rattle.edge_word.specs.Words.{IsOfBottles};
ghost use Rattle.legal_steps.specs.declared.phase.Drinking.TheVariants.{Thirsty};
ghost use Rattle.legal_steps.specs.State.{IsOwn, edge as edge_at, drinking};
ghost use Rattle.legal_steps.specs.Legal.{MayGiveBottle, MayAskBottle};
ghost use Rattle.legal_steps.specs.Run.{IsLegalFrom};
ghost use Rattle.edge_word.specs.Moves.{events_of};
ghost use Rattle.edge_rule.specs.DeskView.{Owns, known};
ghost use Rattle.turns.specs.Due.{AreForkMoves, AreDue, WithBottles, IsGreatest, fork_gone, fork_asked_for};
ghost use Rattle.drinking_layer.specs.Local.{with_sets as sets_added};

use crate::needs::{gifts, wishes};
use dining_layer::{at_edge, at_edge_seen, due_forks};
use edge_rule::{Bench, Desk};
use edge_word::{EdgeMoves, EdgeWord};
use lab_plan::EdgeNo;
use legal_steps::{EdgeState, End, JobState};
use std::alloc::Allocator;

/// The moves with the bottles that are given and asked for at an edge that was seen so from the job's own end.
pub fn with_sets(phase: JobState, needed: u32, mine: EdgeState, moves: EdgeMoves) -> EdgeMoves
    ensures { result ≡ sets_added phase needed mine moves }
{
    let given = gifts(phase, needed, mine, moves.give_fork);
    let asked = wishes(phase, needed, mine, given);
    EdgeMoves {
        give_bottles: given,
        ask_bottles: asked,
        ..moves
    }
}

/// The same fork moves with the greatest legal sets of bottles.
pub fn with_bottles<A: Allocator>(
    bench: &Bench<A>,
    desk: &Desk<A>,
    edge: EdgeNo,
    moves: EdgeMoves,
) -> EdgeMoves
    requires own { Owns bench.now desk.now }
    requires edge { IsOwn desk.now.plan desk.now.job edge }
    ensures with { WithBottles desk.now.plan (known desk.now) desk.now.job edge moves result }
    ensures due { AreForkMoves desk.now.plan (known desk.now) desk.now.job edge moves → AreDue desk.now.plan (known desk.now) desk.now.job edge result }
    ensures legal { AreForkMoves desk.now.plan (known desk.now) desk.now.job edge moves
        → IsLegalFrom desk.now.plan (known desk.now) (events_of result desk.now.job edge) }
{
    let at = at_edge(bench, desk, edge);
    let needed = desk.needed(edge);
    with_sets(at.phase, needed, at.mine, moves)
}

/// All moves that are due on an edge by the word last seen: every legal fork move, and the greatest legal sets of bottles.
pub fn due_moves<A: Allocator>(bench: &Bench<A>, desk: &Desk<A>, edge: EdgeNo) -> EdgeMoves
    requires own { Owns bench.now desk.now }
    requires edge { IsOwn desk.now.plan desk.now.job edge }
    ensures due { AreDue desk.now.plan (known desk.now) desk.now.job edge result }
    ensures legal { IsLegalFrom desk.now.plan (known desk.now) (events_of result desk.now.job edge) }
{
    let seen = desk.seen(edge);
    due_moves_seen(bench, desk, edge, seen)
}

/// The same for a caller that has at hand what the desk saw last on the edge.
pub fn due_moves_seen<A: Allocator>(
    bench: &Bench<A>,
    desk: &Desk<A>,
    edge: EdgeNo,
    seen: EdgeWord,
) -> EdgeMoves
    requires own { Owns bench.now desk.now }
    requires edge { IsOwn desk.now.plan desk.now.job edge }
    requires seen { seen ≡ edge_at (known desk.now) edge }
    requires fits_seen { IsOfBottles (length (bottles desk.now.plan edge)) seen }
    ensures due { AreDue desk.now.plan (known desk.now) desk.now.job edge result }
    ensures legal { IsLegalFrom desk.now.plan (known desk.now) (events_of result desk.now.job edge) }
{
    let at = at_edge_seen(bench, desk, edge, seen);
    let needed = desk.needed(edge);
    let forks = due_forks(at.phase.dining, End::Higher, at.mine);
    with_sets(at.phase, needed, at.mine, forks)
}

/// The greatest sets of bottles that may be given and asked for in such a group: each after the moves of the group that
/// come before it, whether or not those are legal.
pub(crate) fn greatest_sets<A: Allocator>(
    bench: &Bench<A>,
    desk: &Desk<A>,
    edge: EdgeNo,
    moves: EdgeMoves,
) -> (u32, u32)
    requires own { Owns bench.now desk.now }
    requires edge { IsOwn desk.now.plan desk.now.job edge }
    ensures gifts { IsGreatest desk.now.plan edge result.0
        (MayGiveBottle desk.now.plan (fork_gone desk.now.plan (known desk.now) desk.now.job edge moves) desk.now.job edge) }
    ensures wishes { IsGreatest desk.now.plan edge result.1 (λ k. (drinking (known desk.now) desk.now.job ≡ Thirsty)
        × MayAskBottle desk.now.plan (fork_asked_for desk.now.plan (known desk.now) desk.now.job edge moves) desk.now.job edge k) }
{
    let at = at_edge(bench, desk, edge);
    let needed = desk.needed(edge);
    let given = gifts(at.phase, needed, at.mine, moves.give_fork);
    let asked = wishes(at.phase, needed, at.mine, moves.give_bottles);
    (given, asked)
}

/// All bottles that may be given, by the word last seen.
pub(crate) fn all_gifts<A: Allocator>(bench: &Bench<A>, desk: &Desk<A>, edge: EdgeNo) -> u32
    requires own { Owns bench.now desk.now }
    requires edge { IsOwn desk.now.plan desk.now.job edge }
    ensures { IsGreatest desk.now.plan edge result (MayGiveBottle desk.now.plan (known desk.now) desk.now.job edge) }
{
    with_bottles(bench, desk, edge, EdgeMoves::NONE).give_bottles
}

/// All bottles that may be asked for, by the word last seen.
pub(crate) fn all_wishes<A: Allocator>(bench: &Bench<A>, desk: &Desk<A>, edge: EdgeNo) -> u32
    requires own { Owns bench.now desk.now }
    requires edge { IsOwn desk.now.plan desk.now.job edge }
    ensures { IsGreatest desk.now.plan edge result
        (λ k. (drinking (known desk.now) desk.now.job ≡ Thirsty) × MayAskBottle desk.now.plan (known desk.now) desk.now.job edge k) }
{
    let at = at_edge(bench, desk, edge);
    let needed = desk.needed(edge);
    wishes(at.phase, needed, at.mine, 0)
}
