//! Whether all jobs are retired.
ghost use Rattle.std.specs.Prelude.{◌≡◌, ◌≢◌, ◌<◌, length};
ghost use Rattle.edge_rule.specs.DeskView.{Owns};
ghost use Rattle.session_layer.specs.Retired.{has_retired, Sees, Glanced};

use edge_rule::{Bench, Desk, glance};
use lab_plan::JobNo;
use legal_steps::Drinking;
use std::alloc::Allocator;

fn is_retired(drinking: Drinking) -> bool
    ensures { result ≡ has_retired drinking }
{
    drinking == Drinking::Retired
}

/// Glances at another job.
fn sees_retired<A: Allocator>(bench: &Bench<A>, desk: &mut Desk<A>, other: JobNo) -> bool
    requires own { Owns bench.now desk.old }
    requires other { (other < length desk.old.plan.jobs) × (other ≢ desk.old.job) }
    ensures { Sees desk.old other result desk.new }
{
    is_retired(glance(bench, desk, other).drinking())
}

/// Glances at every other job in ascending order. True exactly if the desk's job is retired and each glance saw a retired job:
/// then all are retired.
pub fn all_retired<A: Allocator>(bench: &Bench<A>, desk: &mut Desk<A>) -> bool
    requires own { Owns bench.now desk.old }
    ensures { Glanced desk.old result desk.new }
{
    let me = desk.job();
    // The glances fall at different moments. A retired job stays retired, so after the last of them all are.
    let mut all = is_retired(desk.phase().drinking);
    let jobs = bench.plan().jobs();
    for k in 0..jobs {
        let other = JobNo(k as u8);
        if other != me {
            all = sees_retired(bench, desk, other) && all;
        }
    }
    all
}
