//! The phase act of a turn.
ghost use Rattle.std.specs.Prelude.{◌≡◌, ◌∷◌, []};
ghost use Rattle.edge_rule.specs.DeskView.{Owns, known};
ghost use Rattle.turns.specs.Acts.{AreActs, IsSettled};
ghost use Rattle.session_layer.specs.ActsDue.{events_due, MayDue};
ghost use Rattle.session_layer.specs.Turn.{IsActed};

use crate::legal::{may_quit, may_reach, may_retire, may_thirst, withdraws};
use drinking_layer::{may_drink, may_hunger, may_leave, may_sit};
use edge_rule::{Bench, Desk, PhaseEvent, command, store_phase};
use std::alloc::Allocator;

/// The phase act that is due.
#[derive(Clone, Copy, PartialEq, Eq, Debug)]
pub enum Due {
    Command,
    Store(PhaseEvent),
    Nothing,
}

/// The first phase act that is legal, as the tests of all of them say.
fn first_due<A: Allocator>(bench: &Bench<A>, desk: &Desk<A>, waited: u32) -> Due
    requires own { Owns bench.now desk.now }
    ensures first { AreActs desk.now.plan (known desk.now) desk.now.job waited (events_due result desk.now.job) }
    ensures may { MayDue desk.now.plan (known desk.now) result desk.now.job }
{
    if may_quit(bench, desk) {
        return Due::Store(PhaseEvent::Quit);
    }
    if may_reach(bench, desk) {
        return Due::Command;
    }
    if may_drink(bench, desk) {
        return Due::Store(PhaseEvent::Drink);
    }
    if withdraws(bench, desk, waited) {
        return Due::Store(PhaseEvent::Withdraw);
    }
    if may_leave(bench, desk) {
        return Due::Store(PhaseEvent::Leave);
    }
    if may_sit(bench, desk) {
        return Due::Store(PhaseEvent::Sit);
    }
    if may_thirst(bench, desk) {
        return Due::Store(PhaseEvent::Thirst);
    }
    if may_hunger(bench, desk) {
        return Due::Store(PhaseEvent::Hunger);
    }
    if may_retire(bench, desk) {
        return Due::Store(PhaseEvent::Retire);
    }
    Due::Nothing
}

/// What is due if no phase act is legal but giving the session up.
fn settled_due<A: Allocator>(bench: &Bench<A>, desk: &Desk<A>, waited: u32) -> Due
    requires own { Owns bench.now desk.now }
    requires settled { IsSettled desk.now.plan (known desk.now) desk.now.job }
    ensures first { AreActs desk.now.plan (known desk.now) desk.now.job waited (events_due result desk.now.job) }
    ensures may { MayDue desk.now.plan (known desk.now) result desk.now.job }
{
    if withdraws(bench, desk, waited) {
        Due::Store(PhaseEvent::Withdraw)
    } else {
        Due::Nothing
    }
}

/// The first phase act that is legal; a session is given up only when its patience is used up by this count.
pub fn phase_due<A: Allocator>(bench: &Bench<A>, desk: &Desk<A>, waited: u32) -> Due
    requires own { Owns bench.now desk.now }
    ensures first { AreActs desk.now.plan (known desk.now) desk.now.job waited (events_due result desk.now.job) }
    ensures may { MayDue desk.now.plan (known desk.now) result desk.now.job }
{
    if desk.is_settled() {
        settled_due(bench, desk, waited)
    } else {
        first_due(bench, desk, waited)
    }
}

/// Does the phase act that is due, and answers how many it did. If none is due, the desk notes it.
pub fn act<A: Allocator>(bench: &Bench<A>, desk: &mut Desk<A>, waited: u32) -> u32
    requires own { Owns bench.now desk.old }
    ensures { IsActed desk.old waited result desk.new }
{
    match phase_due(bench, desk, waited) {
        Due::Command => {
            // The entry that it answers is in the log.
            let _ = command(bench, desk);
            1
        }
        Due::Store(what) => {
            store_phase(bench, desk, what);
            1
        }
        Due::Nothing => {
            desk.note_settled();
            0
        }
    }
}
