//! Commands in hand.
ghost use Rattle.std.specs.Prelude.{◌≡◌, IfOk};
ghost use Rattle.round_trace.specs.InHand.{acts_in_hand, BringsToRest};

use interleaving::World;
use lab_plan::JobNo;
use legal_steps::{Drinking, Event};
use std::alloc::{AllocError, Allocator};

/// The acts of all jobs that reach for a log, in ascending order: what is missing where a run was cut off. Each is legal, and once they are
/// done no job reaches.
pub fn acts_in_hand<A: Allocator, B: Allocator>(
    alloc: A,
    world: &World<B>,
) -> Result<Vec<Event, A>, AllocError>
    ensures acts { IfOk result (λ acts. acts.items ≡ acts_in_hand world.now.plan world.now.state) }
    ensures rests { IfOk result (λ acts. BringsToRest world.now.plan world.now.state acts.items) }
{
    let mut acts = Vec::new(alloc);
    for job in 0..world.plan().jobs() {
        let number = JobNo(job as u8);
        if world.job(number).drinking == Drinking::Reaching {
            acts.push(Event::Act(number))?;
        }
    }
    Ok(acts)
}
