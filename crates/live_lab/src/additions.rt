//! Sessions that come while the lab is open.
ghost use Rattle.lab_plan.specs.Longer.{session_of};
ghost use Rattle.legal_steps.specs.Legal.{IsJob};
ghost use Rattle.live_lab.specs.Calls.{AtJob};
ghost use Rattle.live_lab.specs.Adding.{LabAdds, AddsRead, AddsText};

use crate::lab::Lab;
use interleaving::AddRefusal;
use lab_plan::{InstrumentNo, JobNo, Verb};
use legal_steps::Drinking;
use script_reader::{FurtherSession, ScriptFault, read_sessions};
use std::alloc::Global;

/// Why the sessions of a text weren't added, or not all of them.
#[derive(Clone, Copy, PartialEq, Eq, Debug)]
pub enum NotAdded {
    /// The job has retired: it takes no further session.
    HasRetired,
    /// The text has no sessions that the job can take, and this is its fault; or there was no memory to read it.
    Fault(ScriptFault),
    /// So many of them were added, and there was no memory for the next.
    NoMemory(usize),
}

impl Lab {
    fn add_session_of(
        &mut self,
        job: JobNo,
        patience: Option<u32>,
        commands: &[(InstrumentNo, Verb)],
    ) -> Result<(), AddRefusal>
        requires { IsJob self.old.world.plan job }
        ensures { LabAdds (session_of patience commands.now) job self.old result self.new }
    {
        // What is noted of who has something to do stays true: a further session asks for nothing until its owner does.
        let _ = self.world.plan();
        self.world.add_session(job, patience, commands)
    }

    /// Adds a session behind the others of a job, if there is such a job, of instruments that the job names already. Whatever was promised of the lab is
    /// promised of it with the longer plan. A job that had no session left has one again, unless it has retired. What a lab keeps for
    /// its journal are events alone: that the session came isn't among them.
    pub fn add_session(
        &mut self,
        job: usize,
        patience: Option<u32>,
        commands: &[(InstrumentNo, Verb)],
    ) -> Option<Result<(), AddRefusal>>
        ensures { AtJob (LabAdds (session_of patience commands.now)) job self.old result self.new }
    {
        if self.jobs() <= job {
            return None;
        }
        Some(self.add_session_of(JobNo(job as u8), patience, commands))
    }
}

impl Lab {
    /// Adds what was read, one behind the other, until there is no memory for one. Answers how many were added then.
    fn add_read(&mut self, job: JobNo, further: &[FurtherSession]) -> Result<(), usize>
        requires { IsJob self.old.world.plan job }
        ensures { AddsRead further.now job self.old result self.new }
    {
        let mut added = 0usize;
        for session in further {
            if self
                .add_session_of(job, session.patience(), session.commands())
                .is_err()
            {
                return Err(added);
            }
            added += 1;
        }
        Ok(())
    }

    fn add_text_of(&mut self, alloc: Global, job: JobNo, text: &[u8]) -> Result<(), NotAdded>
        requires { IsJob self.old.world.plan job }
        ensures { AddsText text.now job self.old result self.new }
    {
        if self.world.job(job).drinking == Drinking::Retired {
            return Err(NotAdded::HasRetired);
        }
        let further = match read_sessions(alloc, self.world.plan(), job, text) {
            Ok(further) => further,
            Err(fault) => return Err(NotAdded::Fault(fault)),
        };
        match self.add_read(job, &further) {
            Ok(()) => Ok(()),
            Err(added) => Err(NotAdded::NoMemory(added)),
        }
    }

    /// Adds the sessions of a text behind the others of a job, if there is such a job: lines `session` or `session patience N`, commands, `end`,
    /// as a script has them (docs/FORMATS.md). They are of instruments that the job names already.
    pub fn add(&mut self, alloc: Global, job: usize, text: &[u8]) -> Option<Result<(), NotAdded>>
        ensures { AtJob (AddsText text.now) job self.old result self.new }
    {
        if self.jobs() <= job {
            return None;
        }
        Some(self.add_text_of(alloc, JobNo(job as u8), text))
    }
}
