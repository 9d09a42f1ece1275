//! How what a handle has ends: from a lab to its report.
ghost use Rattle.std.specs.Prelude.{◌≡◌};
ghost use Rattle.bench_calls.specs.Closing.{Closes, ClosesInside, Frees, Reports};

use crate::handle::{Handle, put, release, take};
use crate::inside::Inside;
use c_tells::{Told, deliver, fail};
use lab_program::{RunFault, status_of};
use live_lab::Printed;
use std::alloc::Global;

fn give(printed: &Printed, room: &mut [u8], told: &mut Told) -> u32
    ensures { Reports printed.now room.old room.new told.new result }
{
    let full = u32::from(status_of(&Ok(printed.outcome)));
    deliver(full, printed.text.as_slice(), room, told)
}

/// The lab's report takes its place, as far as memory goes, and is given.
fn close_in(alloc: Global, inside: &mut Inside, room: &mut [u8], told: &mut Told) -> u32
    ensures { ClosesInside inside.old inside.new room.old room.new told.old told.new result }
{
    match inside {
        Inside::Open(lab) => match lab.print(alloc) {
            Some(printed) => {
                let status = give(&printed, room, told);
                *inside = Inside::Reported(printed);
                status
            }
            None => fail(RunFault::NoMemory, told),
        },
        Inside::Reported(printed) => give(printed, room, told),
    }
}

/// Closes the lab, and puts its report into the room. Without memory the handle keeps the lab, and without room the report: the next call goes on from there.
pub fn close(alloc: Global, bench: &mut Handle, room: &mut [u8], told: &mut Told) -> u32
    ensures { Closes bench.old.slot.held bench.new.slot.held room.old room.new told.old told.new result }
{
    let mut inside = match take(&mut bench.slot, &mut bench.live, alloc) {
        Ok(inside) => inside,
        Err(status) => return status,
    };
    let status = close_in(alloc, &mut inside, room, told);
    put(&mut bench.slot, &mut bench.live, inside);
    status
}

/// Frees the lab of the handle, or its report. The handle has nothing then.
pub fn free(alloc: Global, bench: &mut Handle) -> u32
    ensures { Frees bench.old.slot.held bench.new.slot.held result }
{
    match take(&mut bench.slot, &mut bench.live, alloc) {
        Ok(_) => {
            release(&mut bench.live);
            0
        }
        Err(status) => status,
    }
}
