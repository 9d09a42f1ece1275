//! All teams, each on a thread of its own if one can be made.
ghost use Rattle.std.specs.Prelude.{◌≡◌, ℕ, ◌<◌, ◌≤◌, ◌-◌, length};
ghost use denote.Param.Send.{IsSync, IsSend, Frees};
ghost use Rattle.turns.specs.Lists.{Each};
ghost use Rattle.edge_rule.specs.DeskView.{BenchView, Owns};
ghost use Rattle.session_layer.specs.Grown.{TookTurns};
ghost use Rattle.workers.specs.Pairs.{Pairs};
ghost use Rattle.workers.specs.Team.{Worked};

use crate::gate::Passage;
use crate::halt::Halt;
use crate::muster::Muster;
use crate::team::{catch_up, work};
use edge_rule::{Bench, Desk};
use std::alloc::Allocator;
use std::sync::Wait;
use std::thread::{Threads, join_mut};

/// What teams do with their desks.
pub trait Crew<A: Allocator>: Sync {
    /// The bench of the desks.
    ghost bench: { Self → BenchView };

    /// How many turns each desk is to take.
    ghost turns: { Self → ℕ };

    /// A worker's rounds.
    fn work(&self, desks: &mut [Desk<A>]) -> Halt
        requires { Each (Owns (bench self.now)) desks.old }
        ensures { Worked (turns self.now) desks.old result desks.new };

    /// Rounds of desks that have taken this many turns, until they have taken as many as the others.
    fn catch_up(&self, taken: u32, most: u32, desks: &mut [Desk<A>])
        requires { Each (Owns (bench self.now)) desks.old }
        ensures { Pairs (TookTurns (most - taken)) desks.old desks.new };
}

/// What all teams of one call are given.
#[derive(Drop)]
pub struct Orders<'b, 'p, R, A: Allocator, P> {
    pub rt: &'b R,
    pub bench: &'b Bench<'p, A>,
    pub gate: &'b P,
    pub muster: &'b Muster,
    pub turns: u32,
}

impl<R: Wait + Sync, A: Allocator + Send + Sync, P: Passage + Sync> Crew<A>
    for Orders<'_, '_, R, A, P> {
    ghost bench = { λ o. o.bench.now };

    ghost turns = { λ o. o.turns };

    fn work(&self, desks: &mut [Desk<A>]) -> Halt {
        if desks.is_empty() {
            return Halt::After(self.turns);
        }
        work(
            self.rt,
            self.bench,
            self.gate,
            self.muster,
            self.turns,
            desks,
        )
    }

    fn catch_up(&self, taken: u32, most: u32, desks: &mut [Desk<A>]) {
        catch_up(self.bench, self.gate, taken, most, desks)
    }
}

/// The teams from `first` on, this many of them. Team `t` has the desks whose job is `t` modulo the workers, and the desks stand in the order
/// of their teams. Each team but the last gets a thread of its own if one can be made, and the calling thread works as the last.
/// Threads are started one right after another, all by the calling thread: were one to start the next, the last would begin later by as
/// many starts. A part that stopped earlier catches up, so that one number says how far all its desks are.
#[cycle(parts)]
pub(crate) fn in_teams<R: Threads + Sync, A: Allocator + Send + Sync, C: Crew<A>>(
    rt: &R,
    crew: &C,
    workers: u32,
    first: u32,
    count: u32,
    desks: &mut [Desk<A>],
) -> Halt
    requires workers { 0 < workers }
    requires own { Each (Owns (C.bench crew.now)) desks.old }
    ensures { Worked (C.turns crew.now) desks.old result desks.new }
{
    if count < 2 {
        return crew.work(desks);
    }
    let middle = first.saturating_add(1);
    let others = count - 1;
    let cut = desks.partition_point(|desk| u32::from(desk.job().0) % workers < middle);
    let (front, back) = desks.split_at_mut(cut);
    let (one, other) = in_parts(rt, crew, workers, first, front, middle, others, back);
    let m = match one {
        Halt::After(m) => m,
        Halt::AllRetired => return Halt::AllRetired,
    };
    let n = match other {
        Halt::After(n) => n,
        Halt::AllRetired => return Halt::AllRetired,
    };
    let most = m.max(n);
    crew.catch_up(m, most, front);
    crew.catch_up(n, most, back);
    Halt::After(most)
}

/// Both parts, the first team alone and on a thread of its own; if none can be made, `join_mut` runs both on this one, one after the other.
#[cycle(parts)]
fn in_parts<R: Threads + Sync, A: Allocator + Send + Sync, C: Crew<A>>(
    rt: &R,
    crew: &C,
    workers: u32,
    first: u32,
    front: &mut [Desk<A>],
    middle: u32,
    others: u32,
    back: &mut [Desk<A>],
) -> (Halt, Halt)
    requires workers { 0 < workers }
    requires others { 0 < others }
    requires front { Each (Owns (C.bench crew.now)) front.old }
    requires back { Each (Owns (C.bench crew.now)) back.old }
    ensures front { Worked (C.turns crew.now) front.old result.0 front.new }
    ensures back { Worked (C.turns crew.now) back.old result.1 back.new }
{
    let alone = 1;
    let mut one = || -> Halt
        requires { IsSync R.row × IsSync A.row × IsSend A.row × IsSync C.row × Frees A.Allocator A.dealloc_token × (0 < workers)
            × Each (Owns (C.bench crew.now)) front.now }
        ensures { Worked (C.turns crew.entry.now) front.entry.now result front.exit.now }
    { in_teams(rt, crew, workers, first, alone, front) };
    let mut other = || -> Halt
        requires { IsSync R.row × IsSync A.row × IsSend A.row × IsSync C.row × Frees A.Allocator A.dealloc_token × (0 < others) × (0 < workers)
            × Each (Owns (C.bench crew.now)) back.now }
        ensures { Worked (C.turns crew.entry.now) back.entry.now result back.exit.now }
    { in_teams(rt, crew, workers, middle, others, back) };
    join_mut(rt, &mut one, &mut other)
}
