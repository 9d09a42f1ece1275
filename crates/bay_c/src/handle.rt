//! The handle that C keeps. A call on it makes it busy, in one step of the machine, takes out what it has, and puts it back. Nobody else may reach the handle
//! meanwhile, by `&mut`. A program that makes two calls at once on one handle breaks that rule, and no contract speaks of it; but then the second call meets
//! a busy handle, changes nothing and says so.
ghost use Rattle.std.specs.Prelude.{◌≡◌, ◌*◌, Option, Some, None, IfOk, IfErr};
ghost use Rattle.box_parts.specs.Owned.{holds};
ghost use Rattle.bay_c.specs.Handles.{open_mark, busy_mark, IsTied};

use crate::inside::Inside;
use crate::slot::Slot;
use box_parts::{Parts, exchange};
use std::alloc::Global;
use std::mem::replace;

/// The status if the handle has nothing that the call could act on.
pub const NOT_OPEN: u32 = 7;

/// The status if the handle that is to be filled has something.
pub const IN_USE: u32 = 11;

/// The status if another call on the handle is under way.
pub const BUSY: u32 = 13;

/// By this a handle that has something is told from garbage: "labrun01".
const OPEN_MARK: u64 = 0x6c61_6272_756e_3031;

/// A handle that a call is made on: "lab_busy".
const BUSY_MARK: u64 = 0x6c61_625f_6275_7379;

/// In C: `struct lab_bay { void *at; uint64_t live; };`, at first all zero.
#[repr(C)]
#[derive(Drop)]
pub struct Handle {
    pub slot: Slot,
    pub live: u64,
    ghost tied: { IsTied live slot.held },
}

impl Handle {
    /// A handle that has nothing, as C makes it of zeros.
    pub fn vacant() -> Handle
        ensures { result.slot.held ≡ None }
    {
        Handle {
            slot: Slot::vacant(),
            live: 0,
        }
    }
}

/// Takes out what a handle has. The handle is busy then, until something is put in or it is released.
pub fn take(slot: &mut Slot, live: &mut u64, alloc: Global) -> Result<Box<Inside, Global>, u32>
    requires tied { IsTied live.old slot.old.held }
    ensures took { IfOk result (λ b. (slot.old.held ≡ Some b.value) × (slot.new.held ≡ None) × (live.new ≡ busy_mark)) }
    ensures none { IfErr result (λ status. (status ≡ 7) × (slot.old.held ≡ None) × (slot.new.held ≡ None) × (live.new ≡ live.old)) }
{
    let was = exchange(live, OPEN_MARK, BUSY_MARK);
    if was != OPEN_MARK {
        return Err(if was == BUSY_MARK { BUSY } else { NOT_OPEN });
    }
    let slot = replace(slot, Slot::vacant());
    Ok(slot.into_parts(alloc).into_box())
}

/// Makes a handle that has nothing busy, so that something may be put in; or says why not.
pub fn claim(slot: &Slot, live: &mut u64) -> Result<(), u32>
    requires tied { IsTied live.old slot.now.held }
    ensures claimed { IfOk result (λ _. (slot.now.held ≡ None) × (live.new ≡ busy_mark)) }
    ensures used { IfErr result (λ status. (status ≡ 11) × (holds slot.now.held ≡ 1) × (live.new ≡ live.old)) }
{
    let was = exchange(live, 0, BUSY_MARK);
    if was == 0 {
        Ok(())
    } else {
        Err(if was == BUSY_MARK { BUSY } else { IN_USE })
    }
}

/// Puts something into a busy handle, which is open then.
pub fn put(slot: &mut Slot, live: &mut u64, inside: Box<Inside, Global>)
    requires busy { live.old ≡ busy_mark }
    ensures { (slot.new.held ≡ Some inside.value) × (live.new ≡ open_mark) }
{
    *slot = Slot::of(Parts::of(inside));
    exchange(live, BUSY_MARK, OPEN_MARK);
}

/// A busy handle has nothing any more.
pub fn release(live: &mut u64)
    requires busy { live.old ≡ busy_mark }
    ensures { live.new ≡ 0 }
{
    exchange(live, BUSY_MARK, 0);
}
