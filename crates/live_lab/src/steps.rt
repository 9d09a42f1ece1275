//! Single events.
ghost use Rattle.std.specs.Prelude.{◌≡◌, ◌∷◌, []};
ghost use Rattle.legal_steps.specs.Legal.{May};
ghost use Rattle.interleaving.specs.World.{LeadsTo};
ghost use Rattle.turns.specs.Acts.{whole_act};
ghost use Rattle.live_lab.specs.Doing.{TriesIn};

use interleaving::World;
use legal_steps::Event;
use std::alloc::Allocator;

/// Does an event that is legal.
pub(crate) fn step<A: Allocator>(world: &mut World<A>, event: Event)
    requires { May world.old.plan world.old.state event }
    ensures { LeadsTo world.old (event ∷ []) world.new }
{
    world.done(event);
}

/// Does an event if it is legal. Answers whether it was.
pub(crate) fn attempt<A: Allocator>(world: &mut World<A>, event: Event) -> bool
    ensures { TriesIn world.old event result world.new }
{
    world.step(event).is_ok()
}

/// Does a phase act that is legal; with a Reach, its Act.
pub(crate) fn do_act<A: Allocator>(world: &mut World<A>, event: &Event)
    requires { May world.old.plan world.old.state event.now }
    ensures { LeadsTo world.old (whole_act event.now) world.new }
{
    // The world is reached, so the job has a seat.
    let _ = world.plan();
    step(world, *event);
    if let Event::Reach(job) = *event {
        step(world, Event::Act(job));
    }
}
