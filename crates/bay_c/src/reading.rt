//! What whoever looks at the bay calls: who keeps an instrument from an ask, and for what an ask waits.
ghost use Rattle.std.specs.Prelude.{◌≡◌};
ghost use Rattle.bay_c.specs.Calls.{InBay, TellsKeeper, waiting, TellsWish};

use crate::handle::{Handle, put, take};
use crate::inside::Inside;
use crate::statuses::NOTHING;
use crate::told::{BayStanding, standing_of};
use bay::Bay;
use std::alloc::Global;

fn keeper_in(machine: &Bay, number: u64, instrument: u32, standing: &mut BayStanding) -> u32
    ensures { TellsKeeper number instrument machine.now machine.now standing.old standing.new result }
{
    if instrument >= 64 {
        return NOTHING;
    }
    match machine.keeper(number, instrument) {
        Some(ask) => {
            *standing = standing_of(ask);
            0
        }
        None => NOTHING,
    }
}

fn waits_in(machine: &Bay, number: u64, set: usize, needs: &mut u64, passed: &mut u32) -> u32
    ensures { TellsWish number set machine.now machine.now (waiting needs.old passed.old) (waiting needs.new passed.new) result }
{
    match machine.wish_for(number, set) {
        Some(wish) => {
            *needs = wish.needs;
            *passed = wish.passed;
            0
        }
        None => NOTHING,
    }
}

/// Who keeps an instrument from the ask with this number: who holds it, or else for whom it is kept.
#[unsafe(no_mangle)]
pub extern "C" fn lab_bay_keeper(
    alloc: Global,
    bay: &mut Handle,
    number: u64,
    instrument: u32,
    keeper: &mut BayStanding,
) -> u32
    ensures { InBay (TellsKeeper number instrument) bay.old.slot.held bay.new.slot.held keeper.old keeper.new result }
{
    let mut inside = match take(&mut bay.slot, &mut bay.live, alloc) {
        Ok(inside) => inside,
        Err(status) => return status,
    };
    let status = match &mut *inside {
        Inside::Open(machine) => keeper_in(machine, number, instrument, keeper),
    };
    put(&mut bay.slot, &mut bay.live, inside);
    status
}

/// What an ask waits for by its set with this place, and how often it was passed there.
#[unsafe(no_mangle)]
pub extern "C" fn lab_bay_waits(
    alloc: Global,
    bay: &mut Handle,
    number: u64,
    set: usize,
    needs: &mut u64,
    passed: &mut u32,
) -> u32
    ensures { InBay (TellsWish number set) bay.old.slot.held bay.new.slot.held (waiting needs.old passed.old) (waiting needs.new passed.new) result }
{
    let mut inside = match take(&mut bay.slot, &mut bay.live, alloc) {
        Ok(inside) => inside,
        Err(status) => return status,
    };
    let status = match &mut *inside {
        Inside::Open(machine) => waits_in(machine, number, set, needs, passed),
    };
    put(&mut bay.slot, &mut bay.live, inside);
    status
}
