//! A lab that comes back from its journal.
ghost use Rattle.std.specs.Prelude.{◌≡◌, IfOk, IfErr};
ghost use Rattle.std.specs.List.{All};
ghost use Rattle.legal_steps.specs.Opening.{the_opening};
ghost use Rattle.legal_steps.specs.Steps.{IsStepOf};
ghost use Rattle.live_lab.specs.Labs.{opened};
ghost use Rattle.lab_program.specs.declared.faults.RunFault.TheVariants.{NoMemory};
ghost use Rattle.lab_journal.specs.Meaning.{JournalMeans};
ghost use Rattle.lab_journal.specs.Resumed.{IsResumed, IsRefused, IsNotResumed};
ghost use Rattle.lab_journal.specs.Finishing.{TakesSteps, IsReplayed, IsKeptIn};

use crate::in_hand::finish;
use crate::read::read_journal;
use crate::room::room_of;
use interleaving::{StepLine, World};
use journal_texts::{whole_lines, wrong_sum};
use lab_program::RunFault;
use live_lab::Lab;
use script_reader::{ScriptCause, ScriptFault};
use std::alloc::{Allocator, Global};

/// Takes steps one after another while they are legal; otherwise answers the line of the first that isn't.
fn take_steps<A: Allocator>(world: &mut World<A>, steps: &[StepLine]) -> Result<(), usize>
    requires { All (λ line. IsStepOf world.old.plan line.step) steps.now }
    ensures { TakesSteps world.old steps.now result world.new }
{
    match world.replay_steps(steps) {
        Ok(_) => Ok(()),
        Err((place, _)) => Err(steps[place].line),
    }
}

/// Does the steps of a journal in the world that its plan opens, and looks at its sums.
pub fn replay_text<A: Allocator>(
    world: &mut World<A>,
    text: &[u8],
    steps: &[StepLine],
) -> Result<(), RunFault>
    requires opened { world.old ≡ opened world.old.plan }
    requires means { JournalMeans text.now world.old.plan steps.now }
    requires own { All (λ line. IsStepOf world.old.plan line.step) steps.now }
    ensures plan { IfOk result (λ _. world.new.plan ≡ world.old.plan) }
    ensures replayed { IfOk result (λ _. IsReplayed text.now world.new) }
    ensures refused { IfErr result (IsRefused text.now) }
{
    if let Err(line) = take_steps(world, steps) {
        return Err(RunFault::Step { line });
    }
    match wrong_sum(text) {
        None => Ok(()),
        Some(line) => Err(RunFault::Script(ScriptFault {
            line,
            cause: ScriptCause::BadStep,
        })),
    }
}

/// The world after the steps of a text.
fn replayed(alloc: Global, text: &[u8]) -> Result<World<'static, Global>, RunFault>
    ensures replayed { IfOk result (λ w. IsReplayed text.now w) }
    ensures refused { IfErr result (IsRefused text.now) }
{
    let (plan, steps) = read_journal(alloc, text)?;
    let mut world = World::of_plan(alloc, plan)?;
    replay_text(&mut world, text, &steps)?;
    Ok(world)
}

/// The lab in a world that is replayed. It keeps what it does from now on: first of all the commands in hand.
fn kept_lab(alloc: Global, mut world: World<'static, Global>) -> Result<Lab, RunFault>
    requires { world.opening ≡ the_opening world.plan }
    ensures kept { IfOk result (λ l. IsKeptIn world.entry l) }
    ensures refused { IfErr result (λ fault. fault ≡ NoMemory) }
{
    let room = room_of(world.plan());
    world.keep(alloc, room)?;
    finish(&mut world);
    Ok(Lab::of_world(alloc, world)?)
}

/// The lab that a journal tells of, as far as the journal has whole lines, and how many bytes these are. All sessions that came are added to its
/// plan. Then its steps are done again from the start, and then the commands in hand. The lab keeps what it does from now on, so that its journal
/// goes on behind those bytes: cut the file there, take the journal at once, and write it.
pub fn resume(alloc: Global, journal: &[u8]) -> Result<(Lab, usize), RunFault>
    ensures resumed { IfOk result (λ r. IsResumed journal.now r.1 r.0) }
    ensures refused { IfErr result (IsNotResumed journal.now) }
{
    let n = whole_lines(journal);
    let world = replayed(alloc, &journal[..n])?;
    let lab = kept_lab(alloc, world)?;
    // The lab's world is where its past leads.
    let _ = lab.world().plan();
    Ok((lab, n))
}
