//! Where the acts of a session are legal, by the desk.
ghost use Rattle.std.specs.Prelude.{◌↔◌, IsTrue};
ghost use Rattle.legal_steps.specs.declared.event.Event.TheVariants.{Thirst, Reach, Quit, Retire, Withdraw};
ghost use Rattle.legal_steps.specs.Legal.{May};
ghost use Rattle.one_history.specs.PhaseEvents.{event_of};
ghost use Rattle.edge_rule.specs.DeskView.{Owns, known};
ghost use Rattle.turns.specs.Acts.{Counts};

use drinking_layer::{may_drink, may_hunger, may_leave, may_sit};
use edge_rule::{Bench, Desk, PhaseEvent};
use std::alloc::Allocator;

/// Whether the session may end: the job drinks, and has no command left in it.
pub fn may_quit<A: Allocator>(bench: &Bench<A>, desk: &Desk<A>) -> bool
    requires own { Owns bench.now desk.now }
    ensures { IsTrue result ↔ May desk.now.plan (known desk.now) (Quit desk.now.job) }
{
    desk.phase().may_quit(bench.plan(), desk.job())
}

/// Whether the next command may be done: the job drinks, and has a command left.
pub fn may_reach<A: Allocator>(bench: &Bench<A>, desk: &Desk<A>) -> bool
    requires own { Owns bench.now desk.now }
    ensures { IsTrue result ↔ May desk.now.plan (known desk.now) (Reach desk.now.job) }
{
    desk.phase().may_reach(bench.plan(), desk.job())
}

pub(crate) fn withdraws<A: Allocator>(bench: &Bench<A>, desk: &Desk<A>, waited: u32) -> bool
    requires own { Owns bench.now desk.now }
    ensures { IsTrue result ↔ Counts desk.now.plan (known desk.now) desk.now.job waited (Withdraw desk.now.job) }
{
    desk.phase().gives_up(bench.plan(), desk.job(), waited)
}

/// Whether the next session may begin: the job is tranquil, doesn't eat, and has a session left.
pub fn may_thirst<A: Allocator>(bench: &Bench<A>, desk: &Desk<A>) -> bool
    requires own { Owns bench.now desk.now }
    ensures { IsTrue result ↔ May desk.now.plan (known desk.now) (Thirst desk.now.job) }
{
    desk.phase().may_thirst(bench.plan(), desk.job())
}

/// Whether the job may retire: it thinks, is tranquil, and has no session left.
pub fn may_retire<A: Allocator>(bench: &Bench<A>, desk: &Desk<A>) -> bool
    requires own { Owns bench.now desk.now }
    ensures { IsTrue result ↔ May desk.now.plan (known desk.now) (Retire desk.now.job) }
{
    desk.phase().may_retire(bench.plan(), desk.job())
}

/// Whether the session may be given up: the job is thirsty, and the session has a patience.
pub fn may_withdraw<A: Allocator>(bench: &Bench<A>, desk: &Desk<A>) -> bool
    requires own { Owns bench.now desk.now }
    ensures { IsTrue result ↔ May desk.now.plan (known desk.now) (Withdraw desk.now.job) }
{
    desk.phase().may_withdraw(bench.plan(), desk.job())
}

/// Whether the job may store this phase.
pub fn may_phase<A: Allocator>(bench: &Bench<A>, desk: &Desk<A>, what: PhaseEvent) -> bool
    requires own { Owns bench.now desk.now }
    ensures { IsTrue result ↔ May desk.now.plan (known desk.now) (event_of what desk.now.job) }
{
    match what {
        PhaseEvent::Thirst => may_thirst(bench, desk),
        PhaseEvent::Hunger => may_hunger(bench, desk),
        PhaseEvent::Sit => may_sit(bench, desk),
        PhaseEvent::Leave => may_leave(bench, desk),
        PhaseEvent::Drink => may_drink(bench, desk),
        PhaseEvent::Quit => may_quit(bench, desk),
        PhaseEvent::Retire => may_retire(bench, desk),
        PhaseEvent::Withdraw => may_withdraw(bench, desk),
    }
}
