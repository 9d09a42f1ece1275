//! The commands of a session.
ghost use Rattle.live_lab.specs.Readers.{IsPlanned};

use crate::lab::Lab;
use lab_plan::{JobNo, Verb};

/// A command as the script has it.
#[derive(Clone, Copy)]
pub struct Planned {
    pub instrument: u32,
    pub verb: Verb,
}

impl Lab {
    /// A command of a job's session. Sessions are counted from 1, and its commands from 0. Nothing if there is no such job, session or command.
    pub fn planned(&self, job: u32, session: u32, place: u32) -> Option<Planned>
        ensures { IsPlanned self.now.world.plan job session place result }
    {
        let plan = self.world.plan();
        if plan.jobs() <= job as usize {
            return None;
        }
        let number = JobNo(job as u8);
        if session == 0 || plan.sessions(number) < session {
            return None;
        }
        let commands = plan.commands(number, session);
        let Some((instrument, verb)) = commands.get(place as usize) else {
            return None;
        };
        Some(Planned {
            instrument: u32::from(instrument.0),
            verb: *verb,
        })
    }
}
