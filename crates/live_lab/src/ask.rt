//! Who asks for a session, and waits outside until it is let in.
ghost use Rattle.std.specs.Prelude.{◌≡◌, ◌<◌, ◌↔◌, IsTrue, length};
ghost use Rattle.legal_steps.specs.Legal.{IsJob};
ghost use Rattle.late_thirst.specs.Outside.{place};
ghost use Rattle.live_lab.specs.Labs.{IsLineOf};
ghost use Rattle.live_lab.specs.Admitting.{IsNext, IsPlaceFor, MayAsk, Attends, Asks};

use crate::kinds::has;
use interleaving::World;
use lab_plan::JobNo;
use late_thirst::{Asker, Line, next_of};
use legal_steps::{Drinking, Event};
use std::alloc::Allocator;

/// What the next session of the job needs, if it is in none and has one left.
fn next_needs<A: Allocator>(world: &World<A>, job: JobNo) -> Option<u64>
    requires { IsJob world.now.plan job }
    ensures { IsNext world.now.plan world.now.state job result }
{
    let phase = world.job(job);
    if phase.drinking != Drinking::Tranquil {
        return None;
    }
    if world.plan().sessions(job) <= phase.session {
        return None;
    }
    Some(world.plan().needs(job, phase.session + 1))
}

/// Whether it is the place of one that asks for a session with these needs.
fn is_place_for(place: Option<Asker>, needs: u64) -> bool
    ensures { IsTrue result ↔ IsPlaceFor needs place }
{
    match place {
        None => false,
        Some(asker) => asker.needs == needs,
    }
}

/// Whether the job is waited for, and may begin.
fn may_ask<A: Allocator>(world: &World<A>, waiting: u32, job: JobNo) -> bool
    requires few { job < 32 }
    ensures { IsTrue result ↔ MayAsk waiting world.now job }
{
    has(waiting, job) && world.enabled(Event::Thirst(job))
}

/// The job keeps its place, asks, or has none.
fn attend<A: Allocator>(line: &mut Line, world: &World<A>, waiting: u32, job: JobNo)
    requires job { IsJob world.now.plan job }
    requires few { job < 32 }
    requires there { IsLineOf world.now line.old }
    ensures { Attends waiting world.now job line.old line.new }
{
    let number = job.0 as usize;
    let Some(needs) = next_needs(world, job) else {
        line.leave(number);
        return;
    };
    if is_place_for(line.place(number), needs) {
        return;
    }
    if may_ask(world, waiting, job) {
        line.ask(number, needs);
    } else {
        line.leave(number);
    }
}

/// Each job keeps its place, asks, or has none.
pub(crate) fn ask<A: Allocator>(line: &mut Line, world: &World<A>, waiting: u32)
    requires { IsLineOf world.now line.old }
    ensures { Asks waiting world.now line.old line.new }
{
    line.count_call();
    let jobs = world.plan().jobs();
    // Whoever is in neither set has no place, and gets none.
    let set = waiting | line.outside();
    let mut job = next_of(set, 0, jobs);
    while job < jobs {
        attend(line, world, waiting, JobNo(job as u8));
        job = next_of(set, job + 1, jobs);
    }
}
