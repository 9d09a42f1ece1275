//! A thread for each desk.
ghost use Rattle.std.specs.Prelude.{◌≡◌};
ghost use Rattle.turns.specs.Lists.{Each};
ghost use Rattle.edge_rule.specs.DeskView.{Owns};
ghost use Rattle.edge_rule.specs.Company.{jobs_of};
ghost use Rattle.desk_user.specs.Use.{Keeps};

use edge_rule::{Bench, Desk};
use std::alloc::Allocator;
use std::thread::{Threads, for_each_mut};

/// Who owns the desks: what a job's thread does.
pub trait Owner: Sync {
    /// Works at the desk of one job, `desk.job()`, and at no other.
    fn work<A: Allocator>(&self, bench: &Bench<A>, desk: &mut Desk<A>)
        requires own { Owns bench.now desk.old }
        ensures { Keeps bench.now desk.old desk.new };
}

/// Lets each desk's owner work, on a thread of its own if one can be made, and returns when all of them have. If no thread can be made, desks are
/// worked at one after another. So let an owner end after a number of turns, and never wait for ever for what another has to do.
pub fn on_threads<R: Threads + Sync, A: Allocator + Send + Sync, W: Owner>(
    rt: &R,
    bench: &Bench<A>,
    desks: &mut [Desk<A>],
    owner: &W,
)
    requires own { Each (Owns bench.now) desks.old }
    ensures own { Each (Owns bench.now) desks.new }
    ensures jobs { jobs_of desks.new ≡ jobs_of desks.old }
{
    let threads = desks.len();
    if threads == 0 {
        return;
    }
    for_each_mut(
        rt,
        desks,
        threads,
        &|_place: usize, desk: &mut Desk<A>|
            requires { Owns bench.now desk.now }
            ensures { Keeps bench.entry.now desk.entry.now desk.exit.now }
        { owner.work(bench, desk) },
    );
}
