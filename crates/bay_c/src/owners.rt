//! What whoever asks calls, and whoever looks after the bay.
ghost use Rattle.std.specs.Prelude.{◌≡◌, ◌+◌, ◌*◌};
ghost use Rattle.bay_c.specs.Calls.{InBay, AsksFor, LetsGo, TakesAway, LeavesIt, GoesAway, Returns, StopsAt, TellsIt, looked, Looks};

use crate::handle::{Handle, put, take};
use crate::inside::Inside;
use crate::statuses::{NOTHING, OVER, not_held_status, refusal_status};
use crate::told::{BayAsked, BayOutcome, BayStanding, outcome_of, request_of, standing_of};
use bay::Bay;
use std::alloc::Global;

fn ask_in(machine: &mut Bay, asked: &BayAsked, sets: &[u64], now: u64) -> u32
    ensures { AsksFor sets.now asked.now now machine.old machine.new tt tt result }
{
    match machine.ask(sets, request_of(asked), now) {
        Ok(()) => 0,
        Err(why) => refusal_status(why),
    }
}

fn let_go_in(machine: &mut Bay, number: u64, now: u64) -> u32
    ensures { LetsGo number now machine.old machine.new tt tt result }
{
    match machine.let_go(number, now) {
        Ok(()) => 0,
        Err(why) => not_held_status(why),
    }
}

fn take_away_in(machine: &mut Bay, number: u64, now: u64) -> u32
    ensures { TakesAway number now machine.old machine.new tt tt result }
{
    match machine.take_away(number, now) {
        Ok(()) => 0,
        Err(why) => not_held_status(why),
    }
}

fn leave_in(machine: &mut Bay, number: u64, now: u64) -> u32
    ensures { LeavesIt number now machine.old machine.new tt tt result }
{
    machine.leave(number, now);
    0
}

fn back_in(machine: &mut Bay, number: u64, owner: u128, now: u64, needs: &mut u64) -> u32
    ensures { Returns number owner now machine.old machine.new needs.old needs.new result }
{
    match machine.back(number, owner, now) {
        Some(held) => {
            *needs = held;
            0
        }
        None => OVER,
    }
}

fn tell_in(machine: &mut Bay, done: u64, outcome: &mut BayOutcome) -> u32
    ensures { TellsIt done machine.old machine.new outcome.old outcome.new result }
{
    match machine.tell(done) {
        Some(told) => {
            *outcome = outcome_of(told);
            0
        }
        None => NOTHING,
    }
}

fn look_in(machine: &Bay, place: usize, standing: &mut BayStanding, next: &mut u64) -> u32
    ensures { Looks place machine.now machine.now (looked standing.old next.old) (looked standing.new next.new) result }
{
    *next = machine.next_number();
    if place >= machine.len() {
        return NOTHING;
    }
    *standing = standing_of(machine.ask_at(place));
    0
}

/// Somebody asks for one of these sets, whichever is free first. It takes memory.
#[unsafe(no_mangle)]
pub extern "C" fn lab_bay_ask(
    alloc: Global,
    bay: &mut Handle,
    asked: &BayAsked,
    sets: &[u64],
    now: u64,
) -> u32
    ensures { InBay (AsksFor sets.now asked.now now) bay.old.slot.held bay.new.slot.held tt tt result }
{
    let mut inside = match take(&mut bay.slot, &mut bay.live, alloc) {
        Ok(inside) => inside,
        Err(status) => return status,
    };
    let status = match &mut *inside {
        Inside::Open(machine) => ask_in(machine, asked, sets, now),
    };
    put(&mut bay.slot, &mut bay.live, inside);
    status
}

/// An ask that holds lets go.
#[unsafe(no_mangle)]
pub extern "C" fn lab_bay_let_go(alloc: Global, bay: &mut Handle, number: u64, now: u64) -> u32
    ensures { InBay (LetsGo number now) bay.old.slot.held bay.new.slot.held tt tt result }
{
    let mut inside = match take(&mut bay.slot, &mut bay.live, alloc) {
        Ok(inside) => inside,
        Err(status) => return status,
    };
    let status = match &mut *inside {
        Inside::Open(machine) => let_go_in(machine, number, now),
    };
    put(&mut bay.slot, &mut bay.live, inside);
    status
}

/// Somebody takes away what an ask holds.
#[unsafe(no_mangle)]
pub extern "C" fn lab_bay_take_away(alloc: Global, bay: &mut Handle, number: u64, now: u64) -> u32
    ensures { InBay (TakesAway number now) bay.old.slot.held bay.new.slot.held tt tt result }
{
    let mut inside = match take(&mut bay.slot, &mut bay.live, alloc) {
        Ok(inside) => inside,
        Err(status) => return status,
    };
    let status = match &mut *inside {
        Inside::Open(machine) => take_away_in(machine, number, now),
    };
    put(&mut bay.slot, &mut bay.live, inside);
    status
}

/// Nobody is there for the ask any more, however far it is.
#[unsafe(no_mangle)]
pub extern "C" fn lab_bay_leave(alloc: Global, bay: &mut Handle, number: u64, now: u64) -> u32
    ensures { InBay (LeavesIt number now) bay.old.slot.held bay.new.slot.held tt tt result }
{
    let mut inside = match take(&mut bay.slot, &mut bay.live, alloc) {
        Ok(inside) => inside,
        Err(status) => return status,
    };
    let status = match &mut *inside {
        Inside::Open(machine) => leave_in(machine, number, now),
    };
    put(&mut bay.slot, &mut bay.live, inside);
    status
}

/// The client of an ask is gone from now on.
#[unsafe(no_mangle)]
pub extern "C" fn lab_bay_gone(alloc: Global, bay: &mut Handle, number: u64, now: u64) -> u32
    ensures { InBay (GoesAway number now) bay.old.slot.held bay.new.slot.held tt tt result }
{
    let mut inside = match take(&mut bay.slot, &mut bay.live, alloc) {
        Ok(inside) => inside,
        Err(status) => return status,
    };
    match &mut *inside {
        Inside::Open(machine) => machine.gone(number, now),
    }
    put(&mut bay.slot, &mut bay.live, inside);
    0
}

/// The client of an ask is there again. What the ask holds is told.
#[unsafe(no_mangle)]
pub extern "C" fn lab_bay_back(
    alloc: Global,
    bay: &mut Handle,
    number: u64,
    owner_high: u64,
    owner_low: u64,
    now: u64,
    needs: &mut u64,
) -> u32
    ensures { InBay (Returns number (owner_high * 18446744073709551616 + owner_low) now) bay.old.slot.held bay.new.slot.held needs.old needs.new result }
{
    let mut inside = match take(&mut bay.slot, &mut bay.live, alloc) {
        Ok(inside) => inside,
        Err(status) => return status,
    };
    let owner = owner_high as u128 * 18446744073709551616 + owner_low as u128;
    let status = match &mut *inside {
        Inside::Open(machine) => back_in(machine, number, owner, now, needs),
    };
    put(&mut bay.slot, &mut bay.live, inside);
    status
}

/// Nobody may ask any more, and whoever waits is over.
#[unsafe(no_mangle)]
pub extern "C" fn lab_bay_stop(alloc: Global, bay: &mut Handle, now: u64) -> u32
    ensures { InBay (StopsAt now) bay.old.slot.held bay.new.slot.held tt tt result }
{
    let mut inside = match take(&mut bay.slot, &mut bay.live, alloc) {
        Ok(inside) => inside,
        Err(status) => return status,
    };
    match &mut *inside {
        Inside::Open(machine) => machine.stop(now),
    }
    put(&mut bay.slot, &mut bay.live, inside);
    0
}

/// What is told next, until its serial number is given back as done.
#[unsafe(no_mangle)]
pub extern "C" fn lab_bay_tell(
    alloc: Global,
    bay: &mut Handle,
    done: u64,
    outcome: &mut BayOutcome,
) -> u32
    ensures { InBay (TellsIt done) bay.old.slot.held bay.new.slot.held outcome.old outcome.new result }
{
    let mut inside = match take(&mut bay.slot, &mut bay.live, alloc) {
        Ok(inside) => inside,
        Err(status) => return status,
    };
    let status = match &mut *inside {
        Inside::Open(machine) => tell_in(machine, done, outcome),
    };
    put(&mut bay.slot, &mut bay.live, inside);
    status
}

/// How the ask at this place of the book stands, and the least number that the next ask may have.
#[unsafe(no_mangle)]
pub extern "C" fn lab_bay_look(
    alloc: Global,
    bay: &mut Handle,
    place: usize,
    standing: &mut BayStanding,
    next: &mut u64,
) -> u32
    ensures { InBay (Looks place) bay.old.slot.held bay.new.slot.held (looked standing.old next.old) (looked standing.new next.new) result }
{
    let mut inside = match take(&mut bay.slot, &mut bay.live, alloc) {
        Ok(inside) => inside,
        Err(status) => return status,
    };
    let status = match &mut *inside {
        Inside::Open(machine) => look_in(machine, place, standing, next),
    };
    put(&mut bay.slot, &mut bay.live, inside);
    status
}
