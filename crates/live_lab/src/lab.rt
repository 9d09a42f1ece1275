//! The lab, and how it is opened.
ghost use Rattle.std.specs.Prelude.{◌≡◌, ◌≤◌, [], true, IfOk, IfErr, OnErr, length, replicate};
ghost use Rattle.legal_steps.specs.Opening.{the_opening};
ghost use Rattle.script_reader.specs.Script.{ScriptMeans};
ghost use Rattle.live_lab.specs.Clocks.{no_clock};
ghost use Rattle.late_thirst.specs.Lines.{with_most};
ghost use Rattle.live_lab.specs.Labs.{fresh_lab, lab_in, with_kept, with_line, IsWhyNot};

use crate::clock::{Clock, fresh};
use interleaving::World;
use lab_program::RunFault;
use late_thirst::Line;
use script_reader::{MOST_BYTES, read_plan};
use settling::Due;
use std::alloc::{AllocError, Global};
use std::marker::Model;

/// A world, a clock for each job, notes of who may have something to do, and who waits outside.
#[derive(Drop)]
pub struct Lab {
    pub(crate) world: World<'static, Global>,
    pub(crate) clocks: Vec<Clock, Global>,
    pub(crate) due: Due<Global>,
    pub(crate) line: Line,
}

impl Model for Lab {
    ghost use Rattle.live_lab.specs.Labs.{LabView, IsLab, IsLineOf};
    ghost use Rattle.settling.specs.Left.{AreMarked};

    ghost Value = { LabView };

    ghost view = { λ x. record { world = x.world; clocks = x.clocks.items; line = x.line } };

    ghost invariant = { λ x. IsLab x.world x.clocks.items × AreMarked x.world.plan x.world.state x.due × IsLineOf x.world x.line };
}

impl Lab {
    /// A lab for the plan of a script, before its first event. All memory that the lab needs is taken here.
    pub fn open(alloc: Global, script: &[u8]) -> Result<Lab, RunFault>
        ensures opened { IfOk result (λ l. (length script.now ≤ 16777216) × ScriptMeans script.now l.world.plan × (l ≡ fresh_lab l.world.plan)) }
        ensures refused { IfErr result (λ fault. IsWhyNot script.now fault) }
    {
        if script.len() > MOST_BYTES {
            return Err(RunFault::TooLong);
        }
        let plan = read_plan(alloc, script)?;
        let world = World::of_plan(alloc, plan)?;
        Ok(Lab::of_world(alloc, world)?)
    }

    /// A lab that goes on from this world. Its clocks are new, and each job is attended to at the next settle. Nobody is outside: whoever was has to
    /// ask again.
    pub fn of_world(alloc: Global, world: World<'static, Global>) -> Result<Lab, AllocError>
        requires { world.opening ≡ the_opening world.plan }
        ensures { IfOk result (λ l. l ≡ lab_in world.entry) }
    {
        let due = Due::all(alloc, world.plan())?;
        let clocks = fresh_clocks(alloc, world.plan().jobs())?;
        let line = Line::nobody(alloc, world.plan().jobs())?;
        Ok(Lab {
            world,
            clocks,
            due,
            line,
        })
    }

    /// From now on a job that asks is let in after so many sessions that pass it by, if its instruments aren't free before. At 0, as a lab begins, it
    /// is at once.
    pub fn set_overtakes(&mut self, most: u32)
        ensures { self.new ≡ with_line self.old (with_most self.old.line most) }
    {
        self.line.set_most(most);
    }

    /// The world, for all that is asked without a step.
    pub fn world(&self) -> &World<'static, Global>
        ensures { result.now ≡ self.now.world }
    {
        &self.world
    }

    /// From now on keeps its events, up to this many until they are [taken](Self::take_kept). What was kept before is let go.
    pub fn keep(&mut self, alloc: Global, room: usize) -> Result<(), AllocError>
        ensures kept { IfOk result (λ _. self.new ≡ with_kept self.old (record { room = room; events = []; whole = true })) }
        ensures refused { OnErr result (self.new ≡ self.old) }
    {
        self.world.keep(alloc, room)
    }

    /// Lets the kept events go, so that there is room for as many again.
    pub fn take_kept(&mut self)
        ensures { self.new ≡ with_kept self.old (record self.old.world.kept { events = [] }) }
    {
        self.world.take_kept();
    }
}

/// A clock for each job.
fn fresh_clocks(alloc: Global, jobs: usize) -> Result<Vec<Clock, Global>, AllocError>
    ensures { IfOk result (λ clocks. clocks.items ≡ replicate jobs no_clock) }
{
    Vec::from_elem(alloc, fresh(), jobs)
}
