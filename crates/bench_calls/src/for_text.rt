//! A lab for a script, or for a text `bench 1`: of that, the first sessions by which jobs may use their instruments are begun and given up at
//! once.
ghost use Rattle.std.specs.Prelude.{◌≡◌, IfOk, IfErr};
ghost use Rattle.lab_program.specs.declared.faults.RunFault.TheVariants as faults;
ghost use Rattle.lab_journal.specs.Taking.{IsOpenedKept};
ghost use Rattle.bench_texts.specs.Texts.{MeansPlan, lab_text as lab_text_of};
ghost use Rattle.bench_calls.specs.Openings.{GivesUpFirst, IsFresh, IsOpenedFor, IsWhyNotFor, fault_of, from_script};

use crate::giving_up::give_up_first;
use bench_texts::{NotScript, at_origin, lab_script, lab_text, users};
use lab_program::RunFault;
use live_lab::Lab;
use script_reader::MOST_BYTES;
use std::alloc::{AllocError, Global};

/// A fault of the script that a text stands for, at the line of the text from which it came.
fn from_script(text: &[u8], fault: RunFault) -> RunFault
    ensures { result ≡ from_script text.now fault }
{
    match fault {
        RunFault::Script(fault) => RunFault::Script(at_origin(text, fault)),
        other => other,
    }
}

/// The lab once the first sessions of its text are given up.
fn without_first(alloc: Global, text: &[u8], lab: Lab) -> Result<Lab, AllocError>
    ensures { IfOk result (λ l. GivesUpFirst text.now lab l) }
{
    let mut lab = lab;
    let jobs = users(alloc, text)?;
    give_up_first(&mut lab, &jobs);
    Ok(lab)
}

/// A lab of a script before its first event. Or one of the script that a text `bench 1` stands for, after the first sessions are given up by
/// which its jobs may use their instruments.
pub(crate) fn open(alloc: Global, text: &[u8]) -> Result<Lab, RunFault>
    ensures opened { IfOk result (λ l. IsOpenedFor IsFresh text.now l) }
    ensures refused { IfErr result (λ fault. IsWhyNotFor text.now fault) }
{
    let script = lab_text(alloc, text)?;
    match Lab::open(alloc, &script) {
        Ok(lab) => Ok(without_first(alloc, text, lab)?),
        Err(fault) => Err(from_script(text, fault)),
    }
}

/// The same, and the lab keeps what it does until its journal is taken, what was given up too.
pub(crate) fn open_kept(alloc: Global, text: &[u8]) -> Result<Lab, RunFault>
    ensures opened { IfOk result (λ l. IsOpenedFor IsOpenedKept text.now l) }
    ensures refused { IfErr result (λ fault. IsWhyNotFor text.now fault) }
{
    let script = lab_text(alloc, text)?;
    match lab_journal::open_kept(alloc, &script) {
        Ok(lab) => Ok(without_first(alloc, text, lab)?),
        Err(fault) => Err(from_script(text, fault)),
    }
}

/// Why there is no script, as why there is no lab.
fn fault_of(why: NotScript) -> RunFault
    ensures { result ≡ fault_of why }
{
    match why {
        NotScript::Fault(fault) => RunFault::Script(fault),
        NotScript::NoMemory => RunFault::NoMemory,
    }
}

/// The script that a text stands for, with which a journal begins: of a script itself. It is one for which a lab is opened, if there is memory.
pub(crate) fn script(alloc: Global, text: &[u8]) -> Result<Vec<u8, Global>, RunFault>
    ensures script { IfOk result (λ script. (script.items ≡ lab_text_of text.now) × MeansPlan text.now) }
    ensures refused { IfErr result (λ fault. IsWhyNotFor text.now fault) }
{
    match lab_script(alloc, text) {
        Ok(script) => {
            if script.len() > MOST_BYTES {
                return Err(RunFault::TooLong);
            }
            Ok(script)
        }
        Err(why) => Err(fault_of(why)),
    }
}
