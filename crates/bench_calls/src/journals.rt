//! A lab that keeps its steps: how a handle gets one, new or from its journal, and how the journal is taken.
ghost use Rattle.std.specs.Prelude.{◌≡◌, IfOk, IfErr};
ghost use Rattle.lab_journal.specs.Taking.{IsOpenedKept};
ghost use Rattle.bench_calls.specs.Calls.{Opens, IsOpened, IsNotOpened, InLab};
ghost use Rattle.bench_calls.specs.Journals.{Resumes, IsResumedIn, IsNotResumedIn, TellsJournal, why_number};

use crate::for_text;
use crate::handle::{Handle, NOT_OPEN, claim, put, release, take};
use crate::inside::Inside;
use crate::statuses::{JOURNAL_FULL, NO_MEMORY, NOT_NOW};
use c_tells::{Told, fail, put as put_text};
use lab_journal::NotTaken;
use lab_program::RunFault;
use live_lab::Lab;
use std::alloc::Global;

/// A lab for a script that keeps its steps, in a box; or the status that says why not, with the fault told.
fn opened_kept(alloc: Global, script: &[u8], told: &mut Told) -> Result<Box<Inside, Global>, u32>
    ensures opened { IfOk result (λ b. IsOpened IsOpenedKept script.now b.value told.old told.new) }
    ensures refused { IfErr result (λ status. IsNotOpened script.now told.new status) }
{
    match for_text::open_kept(alloc, script) {
        Ok(lab) => match Box::new(alloc, Inside::Open(lab)) {
            Ok(inside) => Ok(inside),
            Err(_) => Err(fail(RunFault::NoMemory, told)),
        },
        Err(fault) => Err(fail(fault, told)),
    }
}

/// Opens a lab for a script that keeps its steps until its journal is taken. A handle that is in use stays as it is.
pub fn open_kept(alloc: Global, script: &[u8], bench: &mut Handle, told: &mut Told) -> u32
    ensures { Opens IsOpenedKept script.now bench.old.slot.held bench.new.slot.held told.old told.new result }
{
    if let Err(status) = claim(&bench.slot, &mut bench.live) {
        return status;
    }
    match opened_kept(alloc, script, told) {
        Ok(inside) => {
            put(&mut bench.slot, &mut bench.live, inside);
            0
        }
        Err(status) => {
            release(&mut bench.live);
            status
        }
    }
}

/// The lab that a journal tells of, in a box, with how many bytes were taken told; or the status that says why not, with the fault told.
fn resumed(alloc: Global, journal: &[u8], told: &mut Told) -> Result<Box<Inside, Global>, u32>
    ensures resumed { IfOk result (λ b. IsResumedIn journal.now b.value told.new) }
    ensures refused { IfErr result (λ status. IsNotResumedIn journal.now told.new status) }
{
    match lab_journal::resume(alloc, journal) {
        Ok((lab, taken)) => match Box::new(alloc, Inside::Open(lab)) {
            Ok(inside) => {
                *told = Told {
                    written: taken,
                    line: 0,
                    cause: 0,
                };
                Ok(inside)
            }
            Err(_) => Err(fail(RunFault::NoMemory, told)),
        },
        Err(fault) => Err(fail(fault, told)),
    }
}

/// Opens the lab that a journal tells of, as far as it has whole lines, and tells how many bytes these are. It keeps its steps from then on.
pub fn resume(alloc: Global, journal: &[u8], bench: &mut Handle, told: &mut Told) -> u32
    ensures { Resumes journal.now bench.old.slot.held bench.new.slot.held told.old told.new result }
{
    if let Err(status) = claim(&bench.slot, &mut bench.live) {
        return status;
    }
    match resumed(alloc, journal, told) {
        Ok(inside) => {
            put(&mut bench.slot, &mut bench.live, inside);
            0
        }
        Err(status) => {
            release(&mut bench.live);
            status
        }
    }
}

/// The status that says why no journal is taken.
fn why_number(why: NotTaken) -> u32
    ensures { result ≡ why_number why }
{
    match why {
        NotTaken::NoMemory => NO_MEMORY,
        NotTaken::NotKept => NOT_NOW,
        NotTaken::NotWhole => JOURNAL_FULL,
    }
}

/// What the lab keeps, as text. It is taken if there is room for the text.
fn tell_journal(alloc: Global, lab: &mut Lab, room: &mut [u8], written: &mut usize) -> u32
    ensures { TellsJournal lab.old lab.new (room.old, written.old) (room.new, written.new) result }
{
    match lab_journal::journal(lab, alloc) {
        Ok(text) => {
            *written = text.len();
            let status = put_text(0, text.as_slice(), room);
            if status == 0 {
                lab.take_kept();
            }
            status
        }
        Err(why) => why_number(why),
    }
}

/// Takes what the lab did since its journal was last taken, as text, if there is room for it.
pub fn journal(alloc: Global, bench: &mut Handle, room: &mut [u8], written: &mut usize) -> u32
    ensures { InLab TellsJournal bench.old.slot.held bench.new.slot.held (room.old, written.old) (room.new, written.new) result }
{
    let mut inside = match take(&mut bench.slot, &mut bench.live, alloc) {
        Ok(inside) => inside,
        Err(status) => return status,
    };
    let status = match &mut *inside {
        Inside::Open(lab) => tell_journal(alloc, lab, room, written),
        _ => NOT_OPEN,
    };
    put(&mut bench.slot, &mut bench.live, inside);
    status
}
