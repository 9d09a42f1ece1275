//! How a handle gets a lab, and the script that a text stands for.
ghost use Rattle.std.specs.Prelude.{IfOk, IfErr};
ghost use Rattle.bench_calls.specs.Openings.{IsFresh};
ghost use Rattle.bench_calls.specs.Calls.{Opens, IsOpened, IsNotOpened, TellsScript};

use crate::for_text;
use crate::handle::{Handle, claim, put, release};
use crate::inside::Inside;
use c_tells::{Told, deliver, fail};
use lab_program::RunFault;
use std::alloc::Global;

/// A lab for a script, in a box; or the status that says why not, with the fault told.
fn opened(alloc: Global, script: &[u8], told: &mut Told) -> Result<Box<Inside, Global>, u32>
    ensures opened { IfOk result (λ b. IsOpened IsFresh script.now b.value told.old told.new) }
    ensures refused { IfErr result (λ status. IsNotOpened script.now told.new status) }
{
    match for_text::open(alloc, script) {
        Ok(lab) => match Box::new(alloc, Inside::Open(lab)) {
            Ok(inside) => Ok(inside),
            Err(_) => Err(fail(RunFault::NoMemory, told)),
        },
        Err(fault) => Err(fail(fault, told)),
    }
}

/// Opens a lab for a script, or for a text `bench 1`. A handle that is in use stays as it is.
pub fn open(alloc: Global, script: &[u8], bench: &mut Handle, told: &mut Told) -> u32
    ensures { Opens IsFresh script.now bench.old.slot.held bench.new.slot.held told.old told.new result }
{
    if let Err(status) = claim(&bench.slot, &mut bench.live) {
        return status;
    }
    match opened(alloc, script, told) {
        Ok(inside) => {
            put(&mut bench.slot, &mut bench.live, inside);
            0
        }
        Err(status) => {
            release(&mut bench.live);
            status
        }
    }
}

/// Puts the script that a text stands for into the room, and tells its length.
pub fn script(alloc: Global, text: &[u8], room: &mut [u8], told: &mut Told) -> u32
    ensures { TellsScript text.now room.old room.new told.new result }
{
    match for_text::script(alloc, text) {
        Ok(script) => deliver(0, &script, room, told),
        Err(fault) => fail(fault, told),
    }
}
