//! A team's rounds.
ghost use Rattle.std.specs.Prelude.{◌≡◌, ◌<◌, ◌-◌, length};
ghost use Rattle.turns.specs.Lists.{Each};
ghost use Rattle.edge_rule.specs.DeskView.{Owns};
ghost use Rattle.session_layer.specs.Grown.{TookTurns};
ghost use Rattle.workers.specs.Pairs.{Pairs};
ghost use Rattle.workers.specs.Team.{AtFirst, LookedOut, LooksOut, Worked};

use crate::gate::Passage;
use crate::halt::Halt;
use crate::muster::Muster;
use crate::round::team_round;
use bell::{Bell, Listener};
use edge_rule::{Bench, Desk};
use rounds::all_retired;
use session_layer::all_retired as sees_all_retired;
use std::alloc::Allocator;
use std::sync::Wait;

/// Whether the desk saw that all jobs are retired. It looks at the others once its own job is: a look takes a word away from
/// the worker that writes it.
fn saw_all_retired<A: Allocator>(bench: &Bench<A>, desk: &mut Desk<A>) -> bool
    requires own { Owns bench.now desk.old }
    ensures { LookedOut desk.old result desk.new }
{
    desk.retired() && sees_all_retired(bench, desk)
}

/// A worker: one turn of each desk a round, and the gate is passed before each turn. It ends after its turns, or after a round in which its
/// first desk saw all jobs retired, or after an idle round if the muster says so. After many idle rounds it sleeps between them, until
/// another team does something, unless teams hurry.
pub fn work<R: Wait, A: Allocator, P: Passage>(
    rt: &R,
    bench: &Bench<A>,
    gate: &P,
    muster: &Muster,
    turns: u32,
    desks: &mut [Desk<A>],
) -> Halt
    requires some { 0 < length desks.old }
    requires own { Each (Owns bench.now) desks.old }
    ensures worked { Worked turns desks.old result desks.new }
    ensures looks { AtFirst (LooksOut turns result) desks.old desks.new }
{
    let mut listener = Listener::new(muster.bell());
    let mut vain = 0;
    muster.begin();
    for number in 0..turns {
        let idle = team_round(bench, gate, &mut listener, desks, u64::from(number) + 1);
        // This look too comes after the worker has said that it may sleep: that the last job retired is seen here, or rings.
        if saw_all_retired(bench, &mut desks[0]) {
            listener.leave();
            return Halt::AllRetired;
        }
        vain = Muster::vain_after(vain, idle);
        if idle && !muster.goes_on(rt, &mut listener, vain, all_retired(desks)) {
            return Halt::After(number + 1);
        }
    }
    listener.leave();
    muster.end();
    Halt::After(turns)
}

/// Rounds of desks that have taken this many turns, until they have taken as many as the others.
pub(crate) fn catch_up<A: Allocator, P: Passage>(
    bench: &Bench<A>,
    gate: &P,
    taken: u32,
    turns: u32,
    desks: &mut [Desk<A>],
)
    requires own { Each (Owns bench.now) desks.old }
    ensures { Pairs (TookTurns (turns - taken)) desks.old desks.new }
{
    // Nobody waits for a team that catches up.
    let bell = Bell::new();
    let mut listener = Listener::new(&bell);
    for number in taken..turns {
        team_round(bench, gate, &mut listener, desks, u64::from(number) + 1);
    }
}
