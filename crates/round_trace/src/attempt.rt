//! One event, done only if it is legal.
ghost use Rattle.std.specs.Prelude.{IfOk};
ghost use Rattle.round_trace.specs.Doing.{Tries};

use interleaving::World;
use legal_steps::Event;
use std::alloc::{AllocError, Allocator};

/// Does the event if it is legal, and adds it to the list then. Answers whether it was legal.
pub(crate) fn attempt<A: Allocator>(
    world: &mut World<A>,
    events: &mut Vec<Event, A>,
    event: &Event,
) -> Result<bool, AllocError>
    ensures { IfOk result (λ done. Tries world.old events.old.items event.now done world.new events.new.items) }
{
    match world.step(*event) {
        Ok(()) => {
            events.push(*event)?;
            Ok(true)
        }
        Err(_) => Ok(false),
    }
}
