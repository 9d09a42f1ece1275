//! The call that starts the workers, and what it answers.
ghost use Rattle.std.specs.Prelude.{◌≡◌, ◌<◌, ◌≤◌, length};
ghost use Rattle.turns.specs.Lists.{Each};
ghost use Rattle.edge_rule.specs.DeskView.{Owns};
ghost use Rattle.edge_rule.specs.Ending.{HasAll};
ghost use Rattle.workers.specs.Driven.{Threaded};

use crate::gate::{Gate, Through};
use crate::last_rounds::finish;
use crate::muster::{Muster, PATIENCE};
use crate::teams::{Orders, in_teams};
use crate::worth::{worker_of, worth_starting};
use edge_rule::{Bench, Desk, meet_all};
use rounds::{Ended, all_retired, are_at_rest};
use std::alloc::Allocator;
use std::sync::Wait;
use std::thread::Threads;

/// Which worker drives the desk, and its place among that worker's desks.
fn place_of<A: Allocator>(desk: &Desk<A>, workers: u32) -> (u32, u8) {
    let job = desk.job();
    (worker_of(job, workers), job.0)
}

/// Drives the desks of the slice. Their order may change, unless no memory is left.
fn drive<R: Threads + Wait + Sync, S: Allocator, A: Allocator + Send + Sync, G: Gate>(
    rt: &R,
    alloc: S,
    bench: &Bench<A>,
    desks: &mut [Desk<A>],
    workers: u32,
    turns: u32,
    gate: &G,
) -> Ended
    requires workers { 1 ≤ workers }
    requires some { 0 < length desks.old }
    requires own { Each (Owns bench.now) desks.old }
    requires all { HasAll bench.now.plan desks.old }
    ensures { Threaded bench.now turns desks.old result desks.new }
{
    let workers = worth_starting(gate, bench.plan(), workers);
    let sorted = desks.sort_by_key(alloc, |desk| place_of(desk, workers));
    if sorted.is_err() {
        return Ended::NoMemory;
    }
    // A worker without desks isn't a team.
    let teams = workers.min(u32::try_from(desks.len()).unwrap_or(u32::MAX));
    let muster = if gate.holds_up() {
        Muster::new(teams, PATIENCE)
    } else {
        Muster::hurried(teams)
    };
    let through = Through { gate };
    let orders = Orders {
        rt,
        bench,
        gate: &through,
        muster: &muster,
        turns,
    };
    let halt = in_teams(rt, &orders, workers, 0, teams, desks);
    desks.sort_unstable_by_key(|desk| desk.job().0);
    finish(bench, &through, halt.taken(turns), turns, desks);
    are_at_rest(desks);
    meet_all(bench, desks);
    if all_retired(desks) {
        return Ended::AllRetired;
    }
    Ended::Limit
}

/// Worker `w` drives the desks whose job number is `w` modulo the workers, in ascending order, one turn each a round, and passes the gate
/// before each turn. It ends after its turns, or after a round in which its first desk saw all jobs retired. A worker without desks isn't
/// started. `alloc` is asked once, before the first worker starts.
///
/// A worker that was idle in many rounds sleeps, until another does something, or for some milliseconds. If a thread can't be made, its
/// worker's rounds run on the calling thread after that one's own. Workers that are idle for about a second, while others don't begin,
/// then stop early, and the calling thread takes the turns that are left, one of each desk a round in ascending order. If the gate holds nobody
/// up (`Gate::holds_up`), a turn takes less than handing over to another thread. Then, if the edges that join jobs of different workers are
/// more than a quarter of the jobs, one worker drives all desks. Otherwise no worker sleeps: all stop as soon as one had many more rounds that
/// were idle than not.
pub fn threads<R: Threads + Wait + Sync, S: Allocator, A: Allocator + Send + Sync, G: Gate>(
    rt: &R,
    alloc: S,
    bench: &Bench<A>,
    mut desks: Vec<Desk<A>, A>,
    workers: u32,
    turns: u32,
    gate: &G,
) -> (Vec<Desk<A>, A>, Ended)
    requires workers { 1 ≤ workers }
    requires own { Each (Owns bench.now) desks.items }
    requires all { HasAll bench.now.plan desks.items }
    ensures { Threaded bench.now turns desks.items result.1 result.0.items }
{
    if desks.is_empty() {
        return (desks, Ended::AllRetired);
    }
    let ended = drive(rt, alloc, bench, desks.as_mut_slice(), workers, turns, gate);
    (desks, ended)
}
