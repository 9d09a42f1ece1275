//! How a bay goes on in a new file.
ghost use Rattle.bay_c.specs.Calls.{InBay, new_file, GoesOnIn};

use crate::handle::{Handle, put, take};
use crate::inside::Inside;
use crate::statuses::{NO_MEMORY, not_turned_number, not_turned_size, not_turned_status};
use crate::told::{BayClass, classes_of};
use bay::Bay;
use std::alloc::Global;

fn turn_in(
    alloc: Global,
    machine: &mut Bay,
    classes: &[BayClass],
    now: u64,
    text: &mut [u8],
    written: &mut usize,
    fault: &mut u64,
) -> u32
    ensures { GoesOnIn classes.now now machine.old machine.new (new_file text.old written.old fault.old)
        (new_file text.new written.new fault.new) result }
{
    let Ok(made) = classes_of(alloc, classes) else {
        return NO_MEMORY;
    };
    match machine.turn(alloc, made, now, text.len()) {
        Ok(begins) => {
            let length = begins.len();
            text[..length].copy_from_slice(&begins);
            *written = length;
            0
        }
        Err(why) => {
            *written = not_turned_size(*written, why);
            *fault = not_turned_number(*fault, why);
            not_turned_status(why)
        }
    }
}

/// The bay goes on in a new file, and from now on with these classes. Hands out the text with which the new file begins. It takes memory.
#[unsafe(no_mangle)]
pub extern "C" fn lab_bay_turn(
    alloc: Global,
    bay: &mut Handle,
    classes: &[BayClass],
    now: u64,
    text: &mut [u8],
    written: &mut usize,
    fault: &mut u64,
) -> u32
    ensures { InBay (GoesOnIn classes.now now) bay.old.slot.held bay.new.slot.held (new_file text.old written.old fault.old)
        (new_file text.new written.new fault.new) result }
{
    let mut inside = match take(&mut bay.slot, &mut bay.live, alloc) {
        Ok(inside) => inside,
        Err(status) => return status,
    };
    let status = match &mut *inside {
        Inside::Open(machine) => turn_in(alloc, machine, classes, now, text, written, fault),
    };
    put(&mut bay.slot, &mut bay.live, inside);
    status
}
