//! What a job's thread does at its desk.
ghost use Rattle.edge_rule.specs.DeskView.{Owns};
ghost use Rattle.desk_user.specs.Use.{Keeps};

use crate::shop::Shop;
use desk_user::{
    Bell, How, Owner, Pause, Until, serve_and_wait, turns_until, turns_until_all_retired,
};
use edge_rule::{Bench, Desk};
use lab_plan::JobNo;
use std::alloc::Allocator;
use std::sync::Wait;

/// More than any of these waits takes if threads run side by side; a thread that has used them up waits no longer, so the program ends. A
/// sleeping thread takes some four hundred a second.
const TURNS: u32 = 50_000;

fn sessions_of(job: JobNo) -> u32 {
    if job == JobNo(0) { 2 } else { 1 }
}

/// Until there is work, the neighbours get what they ask for. A turn would begin the session at once.
fn wait_for_work<R: Wait, A: Allocator>(
    shop: &Shop,
    bench: &Bench<A>,
    desk: &mut Desk<A>,
    pause: &mut Pause<'_, R>,
)
    requires own { Owns bench.now desk.old }
    ensures { Keeps bench.now desk.old desk.new }
{
    for _number in 0..TURNS {
        if shop.has_work(desk.job()) {
            return;
        }
        let _ = serve_and_wait(bench, desk, pause);
    }
}

/// What the job does while it holds its instruments. It may take long: the neighbours get what this session doesn't need meanwhile.
fn work_at_them<R: Wait, A: Allocator>(
    bench: &Bench<A>,
    desk: &mut Desk<A>,
    pause: &mut Pause<'_, R>,
)
    requires own { Owns bench.now desk.old }
    ensures { Keeps bench.now desk.old desk.new }
{
    // It has work to do, so it doesn't sleep.
    pause.change(How::Yield);
    for _number in 0..1000u32 {
        let _ = serve_and_wait(bench, desk, pause);
    }
    pause.change(How::Sleep);
}

/// One session, from waiting for work to the end. Answers whether it came to its end within the turns.
fn one_session<R: Wait, A: Allocator>(
    shop: &Shop,
    bench: &Bench<A>,
    desk: &mut Desk<A>,
    session: u32,
    pause: &mut Pause<'_, R>,
) -> bool
    requires own { Owns bench.now desk.old }
    ensures { Keeps bench.now desk.old desk.new }
{
    let job = desk.job();
    wait_for_work(shop, bench, desk, pause);
    let before = desk.turns();
    if !turns_until(bench, desk, Until::Holds, TURNS, pause) {
        return false;
    }
    shop.add_waited(job, desk.turns().saturating_sub(before));
    shop.take(job, session);
    work_at_them(bench, desk, pause);
    let done = turns_until(bench, desk, Until::CommandsDone, TURNS, pause);
    // Before the turn that ends the session: from then on another may hold them.
    shop.put_back(job, session);
    let out = turns_until(bench, desk, Until::IsOut, TURNS, pause);
    shop.has_done(job);
    // Another may wait for just this, and the bench knows nothing of it.
    pause.ring();
    done && out
}

fn all_sessions<R: Wait, A: Allocator>(
    shop: &Shop,
    bench: &Bench<A>,
    desk: &mut Desk<A>,
    pause: &mut Pause<'_, R>,
) -> bool
    requires own { Owns bench.now desk.old }
    ensures { Keeps bench.now desk.old desk.new }
{
    for session in 0..sessions_of(desk.job()) {
        if !one_session(shop, bench, desk, session + 1, pause) {
            return false;
        }
    }
    true
}

/// The owners of all desks: what they share, and how they wait.
#[derive(Drop)]
pub(crate) struct Owners<'w, R> {
    pub(crate) rt: &'w R,
    pub(crate) shop: &'w Shop,
    pub(crate) bell: &'w Bell,
}

impl<R: Wait + Sync> Owner for Owners<'_, R> {
    fn work<A: Allocator>(&self, bench: &Bench<A>, desk: &mut Desk<A>) {
        // Whoever waits sleeps, however long another works.
        let mut pause = Pause::new(How::Sleep, self.rt, self.bell);
        if all_sessions(self.shop, bench, desk, &mut pause) {
            // A retired job goes on giving what it is asked for, until nobody can ask any more.
            let _ = turns_until_all_retired(bench, desk, TURNS, &mut pause);
        }
    }
}
