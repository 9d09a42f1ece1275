//! Commands in hand, at the end of a journal.
ghost use Rattle.std.specs.Prelude.{◌≡◌, ◌≢◌, ℕ, ◌∷◌, []};
ghost use Rattle.legal_steps.specs.declared.event.Event.TheVariants.{Act};
ghost use Rattle.legal_steps.specs.declared.phase.Drinking.TheVariants.{Reaching};
ghost use Rattle.legal_steps.specs.State.{drinking};
ghost use Rattle.legal_steps.specs.Legal.{IsJob, May, after};
ghost use Rattle.interleaving.specs.World.{GoesOnBy};
ghost use Rattle.lab_journal.specs.Finishing.{Finishes};

use interleaving::World;
use lab_plan::JobNo;
use legal_steps::{Drinking, Event};
use std::alloc::Allocator;

/// Does the command in hand.
fn act<A: Allocator>(world: &mut World<A>, job: JobNo)
    requires { May world.old.plan world.old.state (Act job) }
    ensures plan { world.new.plan ≡ world.old.plan }
    ensures state { world.new.state ≡ after world.old.plan world.old.state (Act job) }
    ensures goes { GoesOnBy world.old (Act job ∷ []) world.new }
{
    if world.step(Event::Act(job)).is_err() {
        unreachable!()
    }
}

/// Does the command in hand, if the job has one.
fn finish_of<A: Allocator>(world: &mut World<A>, job: JobNo)
    requires { IsJob world.old.plan job }
    ensures goes { Finishes 1 world.old world.new }
    ensures none { drinking world.new.state job ≢ Reaching }
    ensures others { (j : ℕ) → j ≢ job → drinking world.new.state j ≡ drinking world.old.state j }
{
    // The world is reached, so the job has a seat.
    let _ = world.plan();
    if world.job(job).drinking == Drinking::Reaching {
        act(world, job);
    }
}

/// Does each command that is in hand.
pub fn finish<A: Allocator>(world: &mut World<A>)
    ensures goes { Finishes 32 world.old world.new }
    ensures none { (j : ℕ) → IsJob world.new.plan j → drinking world.new.state j ≢ Reaching }
{
    for job in 0..world.plan().jobs() {
        finish_of(world, JobNo(job as u8));
    }
}
