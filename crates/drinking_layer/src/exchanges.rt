//! Where an exchange may be made.
ghost use Rattle.std.specs.Prelude.{◌≡◌, ◌↔◌, ◌==◌, IsTrue, bit_and};
ghost use Rattle.legal_steps.specs.declared.event.Event.TheVariants.{GiveBottles, AskBottles};
ghost use Rattle.legal_steps.specs.State.{IsOwn};
ghost use Rattle.legal_steps.specs.Legal.{May};
ghost use Rattle.legal_steps.specs.Run.{IsLegalFrom};
ghost use Rattle.edge_word.specs.Moves.{events_of};
ghost use Rattle.edge_rule.specs.DeskView.{Owns, known};
ghost use Rattle.drinking_layer.specs.Exchanging.{MayExchange, AreForkMovesLegal};

use crate::bottles::{all_gifts, all_wishes, greatest_sets};
use dining_layer::at_edge;
use edge_rule::{Bench, Desk};
use edge_word::EdgeMoves;
use lab_plan::{EdgeNo, JobNo, Plan};
use legal_steps::{Dining, EdgeState, End};
use std::alloc::Allocator;

/// Whether the edge is one of the job's.
fn has_end<A: Allocator>(plan: &Plan<A>, job: JobNo, edge: EdgeNo) -> bool
    ensures { IsTrue result ↔ IsOwn plan.now job edge }
{
    if edge.0 >= plan.edges() {
        return false;
    }
    let (lower, higher) = plan.ends(edge);
    lower == job || higher == job
}

/// Whether the edge is there, and one of the desk's job.
pub fn is_own_edge<A: Allocator>(bench: &Bench<A>, desk: &Desk<A>, edge: EdgeNo) -> bool
    requires own { Owns bench.now desk.now }
    ensures { IsTrue result ↔ IsOwn desk.now.plan desk.now.job edge }
{
    let job = desk.job();
    has_end(bench.plan(), job, edge)
}

/// Whether each move of the fork is legal after the ones before it.
fn are_fork_moves(dining: Dining, here: End, seen: EdgeState, moves: EdgeMoves) -> bool
    ensures { IsTrue result ↔ AreForkMovesLegal dining here seen moves }
{
    if moves.give_fork && !seen.gives_fork(here, dining) {
        return false;
    }
    let left = if moves.give_fork {
        seen.fork_given()
    } else {
        seen
    };
    if moves.ask_fork && !left.wants_fork(here, dining) {
        return false;
    }
    !moves.soil || left.soils(here, dining)
}

fn is_part(set: u32, all: u32) -> bool
    ensures { result ≡ (bit_and set all == set) }
{
    set & all == set
}

/// Whether each move is legal after the ones before it.
fn are_legal<A: Allocator>(bench: &Bench<A>, desk: &Desk<A>, edge: EdgeNo, moves: EdgeMoves) -> bool
    requires own { Owns bench.now desk.now }
    requires edge { IsOwn desk.now.plan desk.now.job edge }
    ensures { IsTrue result ↔ IsLegalFrom desk.now.plan (known desk.now) (events_of moves desk.now.job edge) }
{
    let at = at_edge(bench, desk, edge);
    if !are_fork_moves(at.phase.dining, at.here, at.seen, moves) {
        return false;
    }
    let (gifts, wishes) = greatest_sets(bench, desk, edge, moves);
    if !is_part(moves.give_bottles, gifts) {
        return false;
    }
    is_part(moves.ask_bottles, wishes)
}

/// Whether these moves may be done on the edge in one exchange, by the word last seen: the edge is one of the job's, there
/// is at least one move, and each is legal after the ones before it.
pub fn may_exchange<A: Allocator>(
    bench: &Bench<A>,
    desk: &Desk<A>,
    edge: EdgeNo,
    moves: EdgeMoves,
) -> bool
    requires own { Owns bench.now desk.now }
    ensures { IsTrue result ↔ MayExchange desk.now edge moves }
{
    if moves.is_empty() || !is_own_edge(bench, desk, edge) {
        return false;
    }
    are_legal(bench, desk, edge, moves)
}

/// Whether these bottles may be asked for, by the word last seen.
pub fn may_ask_bottles<A: Allocator>(
    bench: &Bench<A>,
    desk: &Desk<A>,
    edge: EdgeNo,
    set: u32,
) -> bool
    requires own { Owns bench.now desk.now }
    requires edge { IsOwn desk.now.plan desk.now.job edge }
    ensures { IsTrue result ↔ May desk.now.plan (known desk.now) (AskBottles desk.now.job edge set) }
{
    set != 0 && set & all_wishes(bench, desk, edge) == set
}

/// Whether these bottles may be given, by the word last seen.
pub fn may_give_bottles<A: Allocator>(
    bench: &Bench<A>,
    desk: &Desk<A>,
    edge: EdgeNo,
    set: u32,
) -> bool
    requires own { Owns bench.now desk.now }
    requires edge { IsOwn desk.now.plan desk.now.job edge }
    ensures { IsTrue result ↔ May desk.now.plan (known desk.now) (GiveBottles desk.now.job edge set) }
{
    set != 0 && set & all_gifts(bench, desk, edge) == set
}
