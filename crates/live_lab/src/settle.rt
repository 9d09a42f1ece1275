//! A settle: sessions begin that are waited for, and all is done that can be done without a word from an owner.
ghost use Rattle.std.specs.Prelude.{◌≡◌, ◌≤◌, length};
ghost use Rattle.live_lab.specs.Counting.{AreTurnsCounted};
ghost use Rattle.live_lab.specs.Settles.{Settles};

use crate::admission::{admit, give_up};
use crate::ask::ask;
use crate::clock::{Clock, after_turn};
use crate::kinds::{Kind, jobs_of};
use crate::lab::Lab;
use crate::rest::come_to_rest;
use interleaving::World;
use lab_plan::JobNo;
use late_thirst::{has, next_of};
use std::alloc::Allocator;

/// What came of a settle. Sets of jobs have bit k for job k.
#[derive(Clone, Copy, PartialEq, Eq, Debug)]
pub struct Came {
    /// The jobs that hold all instruments of their session now.
    pub holds: u32,
    /// The jobs whose session was given up in this call because its patience was used up.
    pub given_up: u32,
    /// The jobs that were waited for and are in no session and have none left to begin.
    pub none_left: u32,
    /// How many events were done, looks aside.
    pub deeds: u32,
}

/// Counts a turn of each job that is waited for or was thirsty at the start.
fn count_turns<A: Allocator>(clocks: &mut [Clock], world: &World<A>, waiting: u32, thirsty: u32)
    requires { length clocks.old ≡ length world.now.plan.jobs }
    ensures { AreTurnsCounted world.now waiting thirsty clocks.old clocks.new }
{
    let jobs = world.plan().jobs();
    let set = waiting | thirsty;
    let mut job = next_of(set, 0, jobs);
    while job < jobs {
        let phase = world.job(JobNo(job as u8));
        clocks[job] = after_turn(clocks[job], has(thirsty, job), phase);
        job = next_of(set, job + 1, jobs);
    }
}

impl Lab {
    /// Each job of `waiting` that may begin its next session asks, and those are let in that are due; then all is done that can be done without a word
    /// from an owner, until nothing is left to do anywhere. Sessions are given up whose patience was used up before. Bits beyond the plan's jobs say
    /// nothing. Looks aside there are few events: at most 129584 at first, and as many after each of at most 32 letting-ins, after sessions are given up and
    /// after each of at most 32 letting-ins behind that, and at most 2080 beginnings and sessions given up.
    pub fn settle(&mut self, waiting: u32) -> Came
        ensures settles { Settles waiting self.old result self.new }
        ensures few { result.deeds ≤ 8554624 }
    {
        let thirsty = jobs_of(&self.world, &self.clocks, waiting, Kind::Waits);
        let first = come_to_rest(&mut self.world, &mut self.due);
        ask(&mut self.line, &self.world, waiting);
        let second = admit(
            &mut self.world,
            &mut self.due,
            &mut self.line,
            &self.clocks,
            waiting,
        );
        let given_up = jobs_of(&self.world, &self.clocks, waiting, Kind::IsImpatient);
        let third = give_up(
            &mut self.world,
            &mut self.due,
            &mut self.line,
            &self.clocks,
            waiting,
            given_up,
        );
        count_turns(&mut self.clocks, &self.world, waiting, thirsty);
        // Who has retired has no session left, since the world is reached.
        let _ = self.world.plan();
        Came {
            holds: jobs_of(&self.world, &self.clocks, waiting, Kind::Holds),
            given_up,
            none_left: jobs_of(&self.world, &self.clocks, waiting, Kind::NoneLeft),
            deeds: first + second + third,
        }
    }
}
