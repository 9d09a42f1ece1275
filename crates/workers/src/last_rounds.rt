//! The rounds of all desks that are left once the teams have ended.
ghost use Rattle.std.specs.Prelude.{◌-◌};
ghost use Rattle.turns.specs.Lists.{Each};
ghost use Rattle.edge_rule.specs.DeskView.{Owns};
ghost use Rattle.workers.specs.Driven.{TookRest};

use crate::gate::Passage;
use crate::round::team_round;
use bell::{Bell, Listener};
use edge_rule::{Bench, Desk};
use rounds::all_retired;
use std::alloc::Allocator;

/// Rounds of all desks, each of which has taken this many turns: they end once all jobs are retired, or all turns are taken. The turns are
/// counted on, and the gate is passed before each.
pub fn finish<A: Allocator, P: Passage>(
    bench: &Bench<A>,
    gate: &P,
    taken: u32,
    turns: u32,
    desks: &mut [Desk<A>],
)
    requires own { Each (Owns bench.now) desks.old }
    ensures { TookRest (turns - taken) desks.old desks.new }
{
    // Nobody else is at work any more.
    let bell = Bell::new();
    let mut listener = Listener::new(&bell);
    for number in taken..turns {
        if all_retired(desks) {
            return;
        }
        team_round(bench, gate, &mut listener, desks, u64::from(number) + 1);
    }
}
