//! The phase events of a meal.
ghost use Rattle.std.specs.Prelude.{◌≡◌, ◌↔◌, ◌∷◌, [], IsTrue};
ghost use Rattle.legal_steps.specs.declared.event.Event.TheVariants.{Hunger, Sit, Leave};
ghost use Rattle.legal_steps.specs.Legal.{May, IsMarkedAll};
ghost use Rattle.one_history.specs.declared.phase_event.PhaseEvent.TheVariants as events;
ghost use Rattle.edge_rule.specs.DeskView.{Owns, known};
ghost use Rattle.dining_layer.specs.Tries.{StoresFirst};

use edge_rule::{Bench, Desk, PhaseEvent, store_phase};
use legal_steps::Dining;
use std::alloc::Allocator;

/// Whether each own edge has a fork mark.
fn is_marked_all<A: Allocator>(bench: &Bench<A>, desk: &Desk<A>) -> bool
    requires own { Owns bench.now desk.now }
    ensures { IsTrue result ↔ IsMarkedAll desk.now.plan (known desk.now) desk.now.job }
{
    let job = desk.job();
    let plan = bench.plan();
    let own = plan.edges_of(job);
    for edge in own {
        if !desk.fork_mark(*edge) {
            return false;
        }
    }
    true
}

/// Whether the meal may end: the job eats, isn't thirsty, and has a mark, so a dirty fork, on each own edge.
pub fn may_leave<A: Allocator>(bench: &Bench<A>, desk: &Desk<A>) -> bool
    requires own { Owns bench.now desk.now }
    ensures { IsTrue result ↔ May desk.now.plan (known desk.now) (Leave desk.now.job) }
{
    desk.phase().may_leave() && is_marked_all(bench, desk)
}

/// Whether a meal may start: the job is hungry, and has a fork mark on each own edge.
pub fn may_sit<A: Allocator>(bench: &Bench<A>, desk: &Desk<A>) -> bool
    requires own { Owns bench.now desk.now }
    ensures { IsTrue result ↔ May desk.now.plan (known desk.now) (Sit desk.now.job) }
{
    desk.phase().dining == Dining::Hungry && is_marked_all(bench, desk)
}

/// Whether the job may become hungry: it thinks, and is thirsty.
pub fn may_hunger<A: Allocator>(bench: &Bench<A>, desk: &Desk<A>) -> bool
    requires own { Owns bench.now desk.now }
    ensures { IsTrue result ↔ May desk.now.plan (known desk.now) (Hunger desk.now.job) }
{
    desk.phase().may_hunger()
}

/// Does the first that is legal of Leave, Sit and Hunger, and answers it.
pub fn table<A: Allocator>(bench: &Bench<A>, desk: &mut Desk<A>) -> Option<PhaseEvent>
    requires own { Owns bench.now desk.old }
    ensures { StoresFirst desk.old (events.Leave ∷ events.Sit ∷ events.Hunger ∷ []) result desk.new }
{
    let what = if may_leave(bench, desk) {
        PhaseEvent::Leave
    } else if may_sit(bench, desk) {
        PhaseEvent::Sit
    } else if may_hunger(bench, desk) {
        PhaseEvent::Hunger
    } else {
        return None;
    };
    store_phase(bench, desk, what);
    Some(what)
}
