//! Serving the neighbours, while the job itself doesn't go on.
ghost use Rattle.std.specs.Prelude.{◌≡◌};
ghost use Rattle.edge_rule.specs.DeskView.{Owns};
ghost use Rattle.desk_user.specs.Use.{Keeps};
ghost use Rattle.desk_user.specs.Serving.{IsMeal, Served};
ghost use Rattle.desk_user.specs.Waits.{Heeds};

use crate::pause::Pause;
use dining_layer::{may_leave, may_sit};
use edge_rule::{Bench, Desk, PhaseEvent, store_phase};
use session_layer::{Turned, visit_all};
use std::alloc::Allocator;
use std::sync::Wait;

/// Ends the job's meal or starts one, if either is legal. Answers how many it did: 1 or 0.
pub fn meal<A: Allocator>(bench: &Bench<A>, desk: &mut Desk<A>) -> u32
    requires own { Owns bench.now desk.old }
    ensures { IsMeal desk.old result desk.new }
{
    if may_leave(bench, desk) {
        store_phase(bench, desk, PhaseEvent::Leave);
        return 1;
    }
    if may_sit(bench, desk) {
        store_phase(bench, desk, PhaseEvent::Sit);
        return 1;
    }
    0
}

/// Visits each edge of the job, and then starts or ends the meal that the job owes: all that a neighbour may wait for, and nothing of the job's sessions.
/// So an owner that has no work yet, or is busy while it holds its instruments, goes on serving its neighbours. It is no turn: the desk counts none, and no
/// patience. Answers as a turn does.
pub fn serve<A: Allocator>(bench: &Bench<A>, desk: &mut Desk<A>) -> Turned
    requires own { Owns bench.now desk.old }
    ensures keeps { Keeps bench.now desk.old desk.new }
    ensures served { Served desk.old result desk.new }
{
    let (done, lost) = visit_all(bench, desk);
    let all = done + meal(bench, desk);
    Turned::of(all, lost)
}

/// As `serve`. If it did something, others are woken; if there was nothing to do, the thread waits a while before this returns.
pub fn serve_and_wait<R: Wait, A: Allocator>(
    bench: &Bench<A>,
    desk: &mut Desk<A>,
    pause: &mut Pause<'_, R>,
) -> Turned
    requires own { Owns bench.now desk.old }
    ensures keeps { Keeps bench.now desk.old desk.new }
    ensures served { Served desk.old result desk.new }
    ensures how { pause.new.how ≡ pause.old.how }
    ensures heeds { Heeds pause.old.how result pause.old.listener pause.new.listener }
{
    let turned = serve(bench, desk);
    pause.after(turned);
    turned
}
