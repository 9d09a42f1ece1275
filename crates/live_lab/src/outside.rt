//! Who waits outside.
ghost use Rattle.std.specs.Prelude.{◌≡◌, ◌<◌, length};
ghost use Rattle.legal_steps.specs.Legal.{IsJob};
ghost use Rattle.late_thirst.specs.declared.asker.Asker.{Asker};
ghost use Rattle.live_lab.specs.Admitting.{IsOutsideAt, IsPlaceOutside};

use crate::lab::Lab;
use lab_plan::JobNo;
use late_thirst::Asker;

impl Lab {
    /// The job's place, if it waits outside.
    pub(crate) fn place_outside(&self, job: JobNo) -> Option<Asker>
        requires { IsJob self.now.world.plan job }
        ensures { IsPlaceOutside self.now job result }
    {
        if self.world.job(job).is_in_session() {
            return None;
        }
        self.line.place(job.0 as usize)
    }

    /// Whether a job waits outside, if there is such a job: it has asked for its next session, and isn't let in yet. Then how often it has been
    /// passed by.
    pub fn outside(&self, job: usize) -> Option<Option<u32>>
        ensures { IsOutsideAt self.now job result }
    {
        if self.jobs() <= job {
            return None;
        }
        Some(match self.place_outside(JobNo(job as u8)) {
            Some(asker) => Some(asker.passed),
            None => None,
        })
    }
}
