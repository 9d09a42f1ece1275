//! Turns, one or many, which leave the desk at its bench.
ghost use Rattle.std.specs.Prelude.{◌≡◌, ◌↔◌, IsNone, IsTrue};
ghost use Rattle.edge_rule.specs.DeskView.{Owns};
ghost use Rattle.turns.specs.AtTheEnd.{AllRetired};
ghost use Rattle.session_layer.specs.Turn.{Took};
ghost use Rattle.desk_user.specs.Use.{IsAt, Keeps, Looked, TookUntil, TookUntilAll, TookUpTo};

use crate::pause::Pause;
use crate::until::{Until, is_at};
use edge_rule::{Bench, Desk};
use session_layer::{Turned, all_retired, turn};
use std::alloc::Allocator;
use std::sync::Wait;

/// One turn, as `session_layer::turn` takes it.
pub fn take_turn<A: Allocator>(bench: &Bench<A>, desk: &mut Desk<A>) -> Turned
    requires own { Owns bench.now desk.old }
    ensures keeps { Keeps bench.now desk.old desk.new }
    ensures took { Took desk.old result desk.new }
{
    turn(bench, desk)
}

/// Takes turns until the job has come so far, at most this many, and answers whether it has. If it has already, no turn is taken. A turn also begins the
/// next session, if the job is in none and has one left. What an idle turn waits for is another thread's to do.
pub fn turns_until<R: Wait, A: Allocator>(
    bench: &Bench<A>,
    desk: &mut Desk<A>,
    until: Until,
    most: u32,
    pause: &mut Pause<'_, R>,
) -> bool
    requires own { Owns bench.now desk.old }
    ensures keeps { Keeps bench.now desk.old desk.new }
    ensures took { TookUpTo most desk.old desk.new }
    ensures says { IsTrue result ↔ IsAt until desk.new }
    ensures stops { TookUntil until most desk.old result desk.new }
    ensures how { pause.new.how ≡ pause.old.how }
    ensures awake { IsNone pause.new.listener.heard }
{
    for _number in 0..most {
        if is_at(bench, desk, until) {
            pause.leave();
            return true;
        }
        let turned = turn(bench, desk);
        pause.after(turned);
    }
    pause.leave();
    is_at(bench, desk, until)
}

/// Whether the desk saw that all jobs are retired. It glances at the others once its own job is: a glance takes a word away from
/// the thread that writes it.
fn saw_all_retired<A: Allocator>(bench: &Bench<A>, desk: &mut Desk<A>) -> bool
    requires own { Owns bench.now desk.old }
    ensures keeps { Keeps bench.now desk.old desk.new }
    ensures took { TookUpTo 0 desk.old desk.new }
    ensures done { IsTrue result → AllRetired desk.new.plan desk.new.front }
    ensures looked { Looked desk.old result desk.new }
{
    desk.retired() && all_retired(bench, desk)
}

/// Takes turns until the desk saw that all jobs are retired, at most this many, and answers whether it did. A retired job goes on giving what it is asked
/// for in its turns.
pub fn turns_until_all_retired<R: Wait, A: Allocator>(
    bench: &Bench<A>,
    desk: &mut Desk<A>,
    most: u32,
    pause: &mut Pause<'_, R>,
) -> bool
    requires own { Owns bench.now desk.old }
    ensures keeps { Keeps bench.now desk.old desk.new }
    ensures took { TookUpTo most desk.old desk.new }
    ensures done { IsTrue result → AllRetired desk.new.plan desk.new.front }
    ensures stops { TookUntilAll most desk.old result desk.new }
    ensures how { pause.new.how ≡ pause.old.how }
    ensures awake { IsNone pause.new.listener.heard }
{
    for _number in 0..most {
        // The last job to retire rings: this look too comes after the thread has said that it may sleep.
        if saw_all_retired(bench, desk) {
            pause.leave();
            return true;
        }
        let turned = turn(bench, desk);
        pause.after(turned);
    }
    pause.leave();
    saw_all_retired(bench, desk)
}
