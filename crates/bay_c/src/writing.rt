//! What the clock and the file of a bay call: a moment, a note, what is to be written, what is durable.
ghost use Rattle.std.specs.Prelude.{◌≡◌};
ghost use Rattle.bay_c.specs.Telling.{number_of};
ghost use Rattle.bay_c.specs.Calls.{InBay, TimeGoes, Notes, handed, HandsOut, TakesJournal, IsDurable, HasFailed};

use crate::handle::{Handle, put, take};
use crate::inside::Inside;
use crate::statuses::{NO_MEMORY, NO_ROOM, not_noted_status};
use bay::Bay;
use std::alloc::Global;

/// The number of a moment.
fn number_of(moment: Option<u64>) -> u64
    ensures { result ≡ number_of moment }
{
    match moment {
        Some(number) => number,
        None => u64::MAX,
    }
}

fn time_in(machine: &mut Bay, now: u64, next: &mut u64) -> u32
    ensures { TimeGoes now machine.old machine.new next.old next.new result }
{
    machine.time(now);
    *next = number_of(machine.next_moment());
    0
}

fn note_in(alloc: Global, machine: &mut Bay, number: u64, text: &[u8], position: &mut u64) -> u32
    ensures { Notes number text.now machine.old machine.new position.old position.new result }
{
    match machine.note(alloc, number, text) {
        Ok(place) => {
            *position = place;
            0
        }
        Err(why) => not_noted_status(why),
    }
}

/// What wasn't handed out yet is put into the room, if there is room for it.
fn hand_out(machine: &mut Bay, text: &mut [u8], written: &mut usize, position: &mut u64) -> u32
    ensures { HandsOut machine.old machine.new (handed text.old written.old position.old) (handed text.new written.new position.new) result }
{
    let unsent = machine.unsent();
    let length = unsent.len();
    *written = length;
    if text.len() < length {
        *position = machine.position();
        return NO_ROOM;
    }
    text[..length].copy_from_slice(unsent);
    *position = machine.position();
    machine.sent();
    0
}

fn journal_in(machine: &mut Bay, text: &mut [u8], written: &mut usize, position: &mut u64) -> u32
    ensures { TakesJournal machine.old machine.new (handed text.old written.old position.old) (handed text.new written.new position.new) result }
{
    match machine.journal() {
        Ok(()) => hand_out(machine, text, written, position),
        Err(_) => NO_MEMORY,
    }
}

fn durable_in(machine: &mut Bay, position: u64) -> u32
    ensures { IsDurable position machine.old machine.new tt tt result }
{
    machine.durable(position);
    0
}

/// It is this moment. The next is told at which something is due.
#[unsafe(no_mangle)]
pub extern "C" fn lab_bay_time(alloc: Global, bay: &mut Handle, now: u64, next: &mut u64) -> u32
    ensures { InBay (TimeGoes now) bay.old.slot.held bay.new.slot.held next.old next.new result }
{
    let mut inside = match take(&mut bay.slot, &mut bay.live, alloc) {
        Ok(inside) => inside,
        Err(status) => return status,
    };
    let status = match &mut *inside {
        Inside::Open(machine) => time_in(machine, now, next),
    };
    put(&mut bay.slot, &mut bay.live, inside);
    status
}

/// A note of an ask is in the journal, and the position is told from which on it outlives a crash. It takes memory.
#[unsafe(no_mangle)]
pub extern "C" fn lab_bay_note(
    alloc: Global,
    bay: &mut Handle,
    number: u64,
    text: &[u8],
    position: &mut u64,
) -> u32
    ensures { InBay (Notes number text.now) bay.old.slot.held bay.new.slot.held position.old position.new result }
{
    let mut inside = match take(&mut bay.slot, &mut bay.live, alloc) {
        Ok(inside) => inside,
        Err(status) => return status,
    };
    let status = match &mut *inside {
        Inside::Open(machine) => note_in(alloc, machine, number, text, position),
    };
    put(&mut bay.slot, &mut bay.live, inside);
    status
}

/// Hands out what is to be written and wasn't handed out yet. It takes memory.
#[unsafe(no_mangle)]
pub extern "C" fn lab_bay_journal(
    alloc: Global,
    bay: &mut Handle,
    text: &mut [u8],
    written: &mut usize,
    position: &mut u64,
) -> u32
    ensures { InBay TakesJournal bay.old.slot.held bay.new.slot.held (handed text.old written.old position.old)
        (handed text.new written.new position.new) result }
{
    let mut inside = match take(&mut bay.slot, &mut bay.live, alloc) {
        Ok(inside) => inside,
        Err(status) => return status,
    };
    let status = match &mut *inside {
        Inside::Open(machine) => journal_in(machine, text, written, position),
    };
    put(&mut bay.slot, &mut bay.live, inside);
    status
}

/// What was handed out is durable up to this position.
#[unsafe(no_mangle)]
pub extern "C" fn lab_bay_durable(alloc: Global, bay: &mut Handle, position: u64) -> u32
    ensures { InBay (IsDurable position) bay.old.slot.held bay.new.slot.held tt tt result }
{
    let mut inside = match take(&mut bay.slot, &mut bay.live, alloc) {
        Ok(inside) => inside,
        Err(status) => return status,
    };
    let status = match &mut *inside {
        Inside::Open(machine) => durable_in(machine, position),
    };
    put(&mut bay.slot, &mut bay.live, inside);
    status
}

/// A write failed: what isn't durable is to be handed out again.
#[unsafe(no_mangle)]
pub extern "C" fn lab_bay_failed(alloc: Global, bay: &mut Handle) -> u32
    ensures { InBay HasFailed bay.old.slot.held bay.new.slot.held tt tt result }
{
    let mut inside = match take(&mut bay.slot, &mut bay.live, alloc) {
        Ok(inside) => inside,
        Err(status) => return status,
    };
    match &mut *inside {
        Inside::Open(machine) => machine.failed(),
    }
    put(&mut bay.slot, &mut bay.live, inside);
    0
}
