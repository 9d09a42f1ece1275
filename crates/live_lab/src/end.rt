//! The end of a session.
ghost use Rattle.std.specs.Prelude.{◌≡◌, ◌≤◌};
ghost use Rattle.legal_steps.specs.declared.phase.Drinking.TheVariants.{Drinking as Drinks};
ghost use Rattle.legal_steps.specs.State.{IsDrinking, phase, drinking};
ghost use Rattle.legal_steps.specs.Legal.{IsJob, May};
ghost use Rattle.legal_steps.specs.declared.event.Event.TheVariants.{Quit};
ghost use Rattle.interleaving.specs.World.{LeadsTo};
ghost use Rattle.live_lab.specs.Calls.{AtJob};
ghost use Rattle.live_lab.specs.Doing.{TakesFromHand, LetsGo};
ghost use Rattle.live_lab.specs.Ends.{EndsSession, commands_by};

use crate::lab::Lab;
use crate::rest::come_to_rest;
use crate::steps::step;
use interleaving::World;
use lab_plan::JobNo;
use legal_steps::{Drinking, Event};
use session_layer::Turned;
use settling::wake_self;
use std::alloc::Allocator;

/// What became of a session that was to be ended.
#[derive(Clone, Copy, PartialEq, Eq, Debug)]
pub enum Release {
    /// The job doesn't hold, and nothing was done.
    NotHeld,
    /// The commands that were left are done, the job has let go, and nothing is left to do without a word from an owner. So many deeds were done.
    LetGo(Turned),
}

/// Does the command that is in hand, if one is. Answers how many deeds that took: 1 or 0.
fn take_from_hand<A: Allocator>(world: &mut World<A>, job: JobNo) -> u32
    requires job { IsJob world.old.plan job }
    requires holds { IsDrinking (phase world.old.state job) }
    ensures { TakesFromHand world.old job result world.new }
{
    if world.job(job).drinking == Drinking::Reaching {
        step(world, Event::Act(job));
        return 1;
    }
    0
}

/// Does all commands that are left. Answers how many there were.
fn command_all<A: Allocator>(world: &mut World<A>, job: JobNo) -> u32
    requires job { IsJob world.old.plan job }
    requires drinks { drinking world.old.state job ≡ Drinks }
    ensures leads { LeadsTo world.old (commands_by job result) world.new }
    ensures none_left { May world.new.plan world.new.state (Quit job) }
    ensures few { result ≤ 100000 }
{
    let phase = world.job(job);
    let left = world.plan().commands(job, phase.session).len() as u32 - phase.position;
    for _number in 0..left {
        step(world, Event::Reach(job));
        step(world, Event::Act(job));
    }
    left
}

/// Does the commands that are left of the job's session, and ends it. Answers how many deeds that took.
fn let_go<A: Allocator>(world: &mut World<A>, job: JobNo) -> u32
    requires job { IsJob world.old.plan job }
    requires holds { IsDrinking (phase world.old.state job) }
    ensures goes { LetsGo world.old job result world.new }
    ensures few { result ≤ 200002 }
{
    let hand = take_from_hand(world, job);
    let commands = command_all(world, job);
    step(world, Event::Quit(job));
    hand + 2 * commands + 1
}

impl Lab {
    fn end_of(&mut self, job: JobNo) -> Release
        requires { IsJob self.old.world.plan job }
        ensures { EndsSession job self.old result self.new }
    {
        if !self.world.job(job).is_drinking() {
            return Release::NotHeld;
        }
        let own = let_go(&mut self.world, job);
        wake_self(self.world.plan(), &mut self.due, job);
        let more = come_to_rest(&mut self.world, &mut self.due);
        Release::LetGo(Turned::of(own + more, 0))
    }

    /// Does the commands that are left of a job's session, ends it, and does all that this makes due, if there is such a job and it holds.
    pub fn end(&mut self, job: usize) -> Option<Release>
        ensures { AtJob EndsSession job self.old result self.new }
    {
        if self.jobs() <= job {
            return None;
        }
        Some(self.end_of(JobNo(job as u8)))
    }
}
