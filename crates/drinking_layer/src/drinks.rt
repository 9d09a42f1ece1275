//! Whether a job has all bottles that it needs, and drinking.
ghost use Rattle.std.specs.Prelude.{◌≡◌, ◌↔◌, ◌∷◌, [], IsTrue, true, false};
ghost use Rattle.legal_steps.specs.declared.event.Event.TheVariants.{Drink};
ghost use Rattle.legal_steps.specs.State.{IsOwn};
ghost use Rattle.legal_steps.specs.Legal.{May, HasNeeded, HasNeededAt};
ghost use Rattle.edge_rule.specs.DeskView.{Owns, known};
ghost use Rattle.drinking_layer.specs.Bottles.{Drank};

use edge_rule::{Bench, Desk, PhaseEvent, store_phase};
use lab_plan::EdgeNo;
use legal_steps::Drinking;
use std::alloc::Allocator;

/// Whether each needed bottle of the edge is marked.
fn has_needed_at<A: Allocator>(desk: &Desk<A>, edge: EdgeNo) -> bool
    requires { IsOwn desk.now.plan desk.now.job edge }
    ensures { IsTrue result ↔ HasNeededAt desk.now.plan (known desk.now) desk.now.job edge }
{
    let marks = desk.bottle_marks(edge);
    let needed = desk.needed(edge);
    needed & marks == needed
}

/// Whether each needed bottle of every own edge is marked.
fn has_needed<A: Allocator>(bench: &Bench<A>, desk: &Desk<A>) -> bool
    requires own { Owns bench.now desk.now }
    ensures { IsTrue result ↔ HasNeeded desk.now.plan (known desk.now) desk.now.job }
{
    let job = desk.job();
    let plan = bench.plan();
    let own = plan.edges_of(job);
    for edge in own {
        if !has_needed_at(desk, *edge) {
            return false;
        }
    }
    true
}

/// Whether the job may drink: it is thirsty, and has a mark for each bottle that its session needs.
pub fn may_drink<A: Allocator>(bench: &Bench<A>, desk: &Desk<A>) -> bool
    requires own { Owns bench.now desk.now }
    ensures { IsTrue result ↔ May desk.now.plan (known desk.now) (Drink desk.now.job) }
{
    desk.phase().drinking == Drinking::Thirsty && has_needed(bench, desk)
}

/// Drinks, if that is legal, and answers whether it did.
pub fn drink<A: Allocator>(bench: &Bench<A>, desk: &mut Desk<A>) -> bool
    requires own { Owns bench.now desk.old }
    ensures { Drank desk.old result desk.new }
{
    let may = may_drink(bench, desk);
    if may {
        store_phase(bench, desk, PhaseEvent::Drink);
    }
    may
}
