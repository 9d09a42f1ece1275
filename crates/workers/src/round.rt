//! One turn of each desk of a slice.
ghost use Rattle.turns.specs.Lists.{Each};
ghost use Rattle.edge_rule.specs.DeskView.{Owns};
ghost use Rattle.session_layer.specs.Grown.{TookTurns};
ghost use Rattle.workers.specs.Pairs.{Pairs};

use crate::gate::Passage;
use bell::Listener;
use edge_rule::{Bench, Desk};
use session_layer::{Turned, turn};
use std::alloc::Allocator;

/// One turn of a desk.
fn desk_turn<A: Allocator>(bench: &Bench<A>, desk: &mut Desk<A>) -> Turned
    requires own { Owns bench.now desk.old }
    ensures { TookTurns 1 desk.old desk.new }
{
    turn(bench, desk)
}

/// One turn of each desk, which has this number. Whoever waits is woken after each that did something: the next may be held up at the gate.
/// Answers whether all were idle.
pub(crate) fn team_round<A: Allocator, P: Passage>(
    bench: &Bench<A>,
    gate: &P,
    listener: &mut Listener<'_>,
    desks: &mut [Desk<A>],
    number: u64,
) -> bool
    requires { Each (Owns bench.now) desks.old }
    ensures { Pairs (TookTurns 1) desks.old desks.new }
{
    let mut idle = true;
    for place in 0..desks.len() {
        gate.pass(desks[place].job(), number);
        let turned = desk_turn(bench, &mut desks[place]);
        idle &= turned == Turned::Idle;
        if let Turned::Acted(_) = turned {
            listener.acted();
        }
    }
    idle
}
