//! A session that isn't waited for any more, before it began.
ghost use Rattle.std.specs.Prelude.{◌↔◌, ◌∷◌, [], IsTrue};
ghost use Rattle.legal_steps.specs.declared.event.Event.TheVariants.{Thirst, Withdraw};
ghost use Rattle.legal_steps.specs.Legal.{IsJob};
ghost use Rattle.interleaving.specs.World.{LeadsTo};
ghost use Rattle.live_lab.specs.Calls.{AtJob, IsNextPatient, MaySkip, Skips};

use crate::lab::Lab;
use crate::steps::step;
use interleaving::World;
use lab_plan::JobNo;
use legal_steps::Event;
use settling::wake_self;
use std::alloc::Allocator;

/// Whether the job has a session left, and the next one has a patience.
fn is_next_patient<A: Allocator>(world: &World<A>, job: JobNo) -> bool
    requires { IsJob world.now.plan job }
    ensures { IsTrue result ↔ IsNextPatient world.now.plan world.now.state job }
{
    let phase = world.job(job);
    let plan = world.plan();
    if plan.sessions(job) <= phase.session {
        return false;
    }
    plan.patience(job, phase.session + 1).is_some()
}

/// Whether the job may begin its next session, and that can be given up.
fn may_skip<A: Allocator>(world: &World<A>, job: JobNo) -> bool
    requires { IsJob world.now.plan job }
    ensures { IsTrue result ↔ MaySkip world.now.plan world.now.state job }
{
    world.enabled(Event::Thirst(job)) && is_next_patient(world, job)
}

/// Begins the job's next session and gives it up.
fn begin_and_give_up<A: Allocator>(world: &mut World<A>, job: JobNo)
    requires { MaySkip world.old.plan world.old.state job }
    ensures { LeadsTo world.old (Thirst job ∷ Withdraw job ∷ []) world.new }
{
    // The world is reached, so the job has a seat.
    let _ = world.plan();
    step(world, Event::Thirst(job));
    step(world, Event::Withdraw(job));
}

impl Lab {
    fn skip_of(&mut self, job: JobNo) -> bool
        requires { IsJob self.old.world.plan job }
        ensures { Skips job self.old result self.new }
    {
        if !may_skip(&self.world, job) {
            return false;
        }
        self.line.leave(job.0 as usize);
        begin_and_give_up(&mut self.world, job);
        wake_self(self.world.plan(), &mut self.due, job);
        true
    }

    /// The next session of a job, if there is such a job, begins and is given up at once, so that nobody asks for it any more, and nothing is done in
    /// between. If the job waited outside it doesn't any more. Answers whether that was done: a job that is in a session, or at its meal, or has none
    /// left, skips none; and only a session that has a patience can be given up.
    pub fn skip(&mut self, job: usize) -> Option<bool>
        ensures { AtJob Skips job self.old result self.new }
    {
        if self.jobs() <= job {
            return None;
        }
        Some(self.skip_of(JobNo(job as u8)))
    }
}
