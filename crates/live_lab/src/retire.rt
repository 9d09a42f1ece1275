//! A job retires.
ghost use Rattle.legal_steps.specs.Legal.{IsJob};
ghost use Rattle.live_lab.specs.Calls.{AtJob};
ghost use Rattle.live_lab.specs.Stages.{GoesToRetire, RestsAndRetires};

use crate::lab::Lab;
use crate::rest::come_to_rest;
use crate::stage::Stage;
use crate::steps::attempt;
use lab_plan::JobNo;
use legal_steps::Event;
use session_layer::Turned;
use settling::wake_self;

impl Lab {
    fn retire_of(&mut self, job: JobNo) -> Turned
        requires { IsJob self.old.world.plan job }
        ensures { RestsAndRetires job self.old result self.new }
    {
        let done = come_to_rest(&mut self.world, &mut self.due);
        let did = attempt(&mut self.world, Event::Retire(job));
        if did {
            wake_self(self.world.plan(), &mut self.due, job);
        }
        Turned::of(done + u32::from(did), 0)
    }

    fn go_to_retire(&mut self, job: JobNo, most: u32) -> (Stage, Turned)
        requires { IsJob self.old.world.plan job }
        ensures { GoesToRetire most job self.old result self.new }
    {
        let stage = self.stage(job);
        if stage != Stage::OnTheWay || most == 0 {
            return (stage, Turned::Idle);
        }
        let done = self.retire_of(job);
        (self.stage(job), done)
    }

    /// Does all that can be done without a word from an owner, and then retires a job, if there is such a job, it has no session left and may retire.
    /// Answers how far the job is then, and how many deeds were done. If `most` is 0, nothing is tried.
    pub fn retire(&mut self, job: usize, most: u32) -> Option<(Stage, Turned)>
        ensures { AtJob (GoesToRetire most) job self.old result self.new }
    {
        if self.jobs() <= job {
            return None;
        }
        Some(self.go_to_retire(JobNo(job as u8), most))
    }
}
