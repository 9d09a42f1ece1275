//! A turn: each own edge is visited, and then comes the phase act.
ghost use Rattle.std.specs.Prelude.{◌≡◌, ◌≤◌};
ghost use Rattle.lab_plan.specs.LabPlan.{edges_of};
ghost use Rattle.legal_steps.specs.State.{IsOwn, drinking};
ghost use Rattle.edge_rule.specs.DeskView.{Owns, known};
ghost use Rattle.turns.specs.Patience.{is_waiting};
ghost use Rattle.session_layer.specs.Turn.{IsVisited, Along, Says, Took};

use crate::phase::act;
use drinking_layer::due_moves_seen;
use edge_rule::{Bench, Desk, Stepped, exchange_seen, look_at};
use lab_plan::EdgeNo;
use legal_steps::Drinking;
use std::alloc::Allocator;

/// What became of a visit.
#[must_use]
#[derive(Clone, Copy, PartialEq, Eq, Debug)]
pub enum Visited {
    /// Its moves were done.
    Done,
    /// Lost: another job changed the word first; nothing was done.
    Lost,
    /// Nothing was due.
    Calm,
}

/// What became of a turn.
#[must_use]
#[derive(Clone, Copy, PartialEq, Eq, Debug)]
pub enum Turned {
    /// The number of exchanges that were done, with the phase act.
    Acted(u32),
    /// Lost: each exchange that was due found a word that another job had changed first, and no act was due; nothing was done. It isn't
    /// called so, because callers know this answer as `Moved`: the edge has moved on.
    Moved,
    /// Nothing was due, by the words seen.
    Idle,
}

impl Turned {
    /// The answer for this number of exchanges and acts that were done, and of exchanges that were lost.
    pub fn of(done: u32, lost: u32) -> Turned
        ensures { Says result done lost }
    {
        if done > 0 {
            Turned::Acted(done)
        } else if lost > 0 {
            Turned::Moved
        } else {
            Turned::Idle
        }
    }
}

/// Looks at the edge, and does in one exchange what is due by what it saw. If nothing is due, the desk notes it, so that
/// the next visit costs the look alone while neither the edge nor the job's phase changes.
pub fn visit<A: Allocator>(bench: &Bench<A>, desk: &mut Desk<A>, edge: EdgeNo) -> Visited
    requires own { Owns bench.now desk.old }
    requires edge { IsOwn desk.old.plan desk.old.job edge }
    ensures { IsVisited desk.old edge result desk.new }
{
    let looked = look_at(bench, desk, edge);
    // The edge's word and the job's phase are those of a visit at which nothing was due.
    if looked.calm {
        return Visited::Calm;
    }
    let moves = due_moves_seen(bench, desk, edge, looked.seen);
    if moves.is_empty() {
        desk.note_calm(edge);
        return Visited::Calm;
    }
    // The moves are due by the word just seen, and the exchange is done only if the edge has it still. It isn't tried again: what is
    // due by the other word is a matter of the next turn's look, so no turn waits for a neighbour.
    match exchange_seen(bench, desk, edge, looked.seen, moves) {
        Stepped::Done => Visited::Done,
        Stepped::Moved(_) => Visited::Lost,
    }
}

/// Visits each edge of the job once, in ascending order: gives what is asked for there and may be given, and asks for what is wanted. Answers how many
/// exchanges were done, and how many were lost.
pub fn visit_all<A: Allocator>(bench: &Bench<A>, desk: &mut Desk<A>) -> (u32, u32)
    requires own { Owns bench.now desk.old }
    ensures along { Along desk.old (edges_of desk.old.plan desk.old.job) result.0 result.1 desk.new }
    ensures few { (result.0 ≤ 496) × (result.1 ≤ 496) }
{
    let plan = bench.plan();
    // A plan has 496 edges at most, as this call ensures: so the two counts can't overflow.
    let _ = plan.edges();
    let own = plan.edges_of(desk.job());
    let mut done = 0u32;
    let mut lost = 0u32;
    for edge in own {
        match visit(bench, desk, *edge) {
            Visited::Done => done += 1,
            Visited::Lost => lost += 1,
            Visited::Calm => (),
        }
    }
    (done, lost)
}

fn is_thirsty<A: Allocator>(desk: &Desk<A>) -> bool
    ensures { result ≡ is_waiting (drinking (known desk.now) desk.now.job) }
{
    desk.phase().drinking == Drinking::Thirsty
}

/// One turn.
pub fn turn<A: Allocator>(bench: &Bench<A>, desk: &mut Desk<A>) -> Turned
    requires own { Owns bench.now desk.old }
    ensures { Took desk.old result desk.new }
{
    let (done, lost) = visit_all(bench, desk);
    // Visits change neither: so these are those of the turn's start, by which it is decided whether patience is used up.
    let thirsty = is_thirsty(desk);
    let waited = desk.waited();
    let all = done + act(bench, desk, waited);
    desk.note_turn(thirsty);
    Turned::of(all, lost)
}
