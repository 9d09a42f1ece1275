//! Owners of desks: each works, on a thread of its own, until all jobs are retired.
ghost use Rattle.edge_rule.specs.DeskView.{Owns};
ghost use Rattle.desk_user.specs.Use.{Keeps};

use crate::gates::{Meeting, TWO_MEET};
use crate::labs::{FOUR, NOBODY, TWO, closed, opened, plan_of};
use crate::teams::{all_count_up, are_full, ended_all};
use desk_user::{Bell, How, Owner, Pause, on_threads, turns_until_all_retired};
use edge_rule::{Bench, Desk};
use lab_plan::Plan;
use std::alloc::{Allocator, Global};
use std::process::Abort;
use std::sync::Wait;
use std::thread::Threads;
use workers::Gate;

/// More turns than any wait takes if threads run side by side.
const TURNS: u32 = 50_000;

/// The owners of all desks: the first two meet before they begin.
#[derive(Drop)]
struct Owners<'w, R> {
    rt: &'w R,
    bell: &'w Bell,
    meeting: &'w Meeting,
}

impl<R: Wait + Sync> Owner for Owners<'_, R> {
    fn work<A: Allocator>(&self, bench: &Bench<A>, desk: &mut Desk<A>) {
        self.meeting.pass(desk.job(), 1);
        let mut waiting = Pause::new(How::Sleep, self.rt, self.bell);
        let _ = turns_until_all_retired(bench, desk, TURNS, &mut waiting);
    }
}

/// All sessions of the plan, each job by an owner of its own. Answers whether the first two were at work at once.
fn owned<R: Threads + Wait + Abort + Sync>(rt: &R, alloc: Global, plan: &Plan) -> bool {
    let (bench, mut desks) = opened(rt, alloc, plan);
    let bell = Bell::new();
    let meeting = Meeting::new(&TWO_MEET);
    let owners = Owners {
        rt,
        bell: &bell,
        meeting: &meeting,
    };
    on_threads(rt, &bench, desks.as_mut_slice(), &owners);
    let left = closed(rt, alloc, bench, desks);
    ended_all(rt, &left);
    are_full(rt, &left);
    all_count_up(rt, &left);
    meeting.all_met()
}

#[test]
fn owners_work_side_by_side(rt: HostRuntime) {
    for script in [TWO, FOUR] {
        let plan = plan_of(&rt, rt.alloc(), script);
        assert!(rt; owned(&rt, rt.alloc(), &plan));
    }
    // nobody is there to meet
    let plan = plan_of(&rt, rt.alloc(), NOBODY);
    assert!(rt; !owned(&rt, rt.alloc(), &plan));
}
