//! What a journal means: its plan with all sessions that came, and its steps.
ghost use Rattle.std.specs.Prelude.{◌≡◌, ◌⊎◌, ◌<◌, length, Ok, Err, IfOk, IfErr, OnOk};
ghost use Rattle.std.specs.List.{All};
ghost use Rattle.legal_steps.specs.Steps.{IsStepOf};
ghost use Rattle.script_reader.specs.declared.fault.ScriptCause.TheVariants.{NoMemory};
ghost use Rattle.live_lab.specs.Adding.{with_all};
ghost use Rattle.lab_journal.specs.Meaning.{with_addition, with_additions, JournalMeans};
ghost use Rattle.lab_journal.specs.Resumed.{IsRefused};
ghost use Rattle.lab_journal.specs.Finishing.{KeepsSteps};

use interleaving::StepLine;
use journal_texts::{Addition, additions};
use lab_plan::{JobNo, Plan};
use lab_program::RunFault;
use script_reader::{FurtherSession, ScriptCause, ScriptFault, read_sessions, read_steps};
use std::alloc::{Allocator, Global};

/// Adds sessions that were read for the plan's job. So only memory can lack.
fn add_read<A: Allocator, B: Allocator>(
    plan: &mut Plan<A>,
    job: JobNo,
    further: &[FurtherSession<B>],
) -> Result<(), ScriptCause>
    requires { job < length plan.old.jobs }
    ensures added { OnOk result (plan.new ≡ with_all plan.old job further.now) }
    ensures keeps { OnOk result (KeepsSteps plan.old plan.new) }
    ensures refused { IfErr result (λ cause. cause ≡ NoMemory) }
{
    for session in further {
        if plan
            .add_session(job, session.patience(), session.commands())
            .is_err()
        {
            return Err(ScriptCause::NoMemory);
        }
    }
    Ok(())
}

/// Adds the sessions of one addition.
fn add_one<A: Allocator + Copy>(
    alloc: A,
    plan: &mut Plan<A>,
    addition: &Addition<A>,
) -> Result<(), ScriptFault>
    ensures added { OnOk result (with_addition plan.old addition.now ≡ Ok plan.new) }
    ensures keeps { OnOk result (KeepsSteps plan.old plan.new) }
    ensures refused { IfErr result (λ fault. (fault.cause ≡ NoMemory) ⊎ (with_addition plan.old addition.now ≡ Err fault)) }
{
    let line = addition.line();
    let Some(job) = plan.job_named(addition.job()) else {
        return Err(ScriptFault {
            line,
            cause: ScriptCause::NotInJob,
        })
    };
    let further = match read_sessions(alloc, plan, job, addition.session()) {
        Ok(further) => further,
        Err(fault) => {
            return Err(ScriptFault {
                line,
                cause: fault.cause,
            })
        }
    };
    match add_read(plan, job, &further) {
        Ok(()) => Ok(()),
        Err(cause) => Err(ScriptFault { line, cause }),
    }
}

/// Adds those of all additions, in order.
fn add_all<A: Allocator + Copy>(
    alloc: A,
    plan: &mut Plan<A>,
    all: &[Addition<A>],
) -> Result<(), ScriptFault>
    ensures added { OnOk result (with_additions plan.old all.now ≡ Ok plan.new) }
    ensures keeps { OnOk result (KeepsSteps plan.old plan.new) }
    ensures refused { IfErr result (λ fault. (fault.cause ≡ NoMemory) ⊎ (with_additions plan.old all.now ≡ Err fault)) }
{
    for addition in all {
        add_one(alloc, plan, addition)?;
    }
    Ok(())
}

/// Reads a journal: the plan of its script with all sessions that came, and its steps, which are of that plan.
pub fn read_journal(
    alloc: Global,
    text: &[u8],
) -> Result<(Plan<Global>, Vec<StepLine, Global>), RunFault>
    ensures meaning { IfOk result (λ r. JournalMeans text.now r.0 r.1.items) }
    ensures own { IfOk result (λ r. All (λ line. IsStepOf r.0 line.step) r.1.items) }
    ensures refused { IfErr result (IsRefused text.now) }
{
    let (mut plan, steps) = read_steps(alloc, text)?;
    let Ok(all) = additions(alloc, text) else {
        return Err(RunFault::NoMemory)
    };
    add_all(alloc, &mut plan, &all)?;
    Ok((plan, steps))
}
