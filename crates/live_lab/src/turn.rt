//! One turn of a job.
ghost use Rattle.std.specs.Prelude.{◌≡◌, ◌≤◌};
ghost use Rattle.legal_steps.specs.Legal.{IsJob};
ghost use Rattle.live_lab.specs.Calls.{AtJob, TakesTurn};
ghost use Rattle.live_lab.specs.Doing.{ActsIn, TurnsIn};

use crate::clock::{after_turn, clock_of, is_waiting, waited_in};
use crate::lab::Lab;
use crate::steps::do_act;
use interleaving::World;
use lab_plan::JobNo;
use round_trace::first_act;
use session_layer::Turned;
use settling::{visit_all, wake_near};
use std::alloc::Allocator;

/// Does the phase act that is due. Answers 1, or 0 if none is.
fn act<A: Allocator>(world: &mut World<A>, job: JobNo, waited: u32) -> u32
    requires { IsJob world.old.plan job }
    ensures acts { ActsIn world.old job waited result world.new }
    ensures one { result ≤ 1 }
{
    match &first_act(world, job, waited) {
        Some(event) => {
            do_act(world, event);
            1
        }
        None => 0,
    }
}

/// Visits each edge of the job, and does the phase act that is due. Answers how many things were done.
fn turn<A: Allocator>(world: &mut World<A>, job: JobNo, waited: u32) -> u32
    requires { IsJob world.old.plan job }
    ensures { TurnsIn world.old job waited result world.new }
{
    let done = visit_all(world, job);
    done + act(world, job, waited)
}

impl Lab {
    fn turn_of(&mut self, job: JobNo) -> Turned
        requires { IsJob self.old.world.plan job }
        ensures { TakesTurn job self.old result self.new }
    {
        let before = self.world.job(job);
        let clock = clock_of(&self.clocks, job);
        let waited = waited_in(clock, before.session);
        let done = turn(&mut self.world, job, waited);
        let thirsty = is_waiting(before.drinking);
        let next = after_turn(clock, thirsty, self.world.job(job));
        self.clocks[job.0 as usize] = next;
        wake_near(self.world.plan(), &mut self.due, job);
        Turned::of(done, 0)
    }

    /// One turn of a job, if there is such a job.
    pub fn turn(&mut self, job: usize) -> Option<Turned>
        ensures { AtJob TakesTurn job self.old result self.new }
    {
        if self.jobs() <= job {
            return None;
        }
        Some(self.turn_of(JobNo(job as u8)))
    }
}
