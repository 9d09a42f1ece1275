//! A box as the one pointer that C keeps.
ghost use Rattle.std.specs.Prelude.{◌≡◌, Option, Some, None};
ghost use Rattle.std.specs.Coded.{coded_option};
ghost use Rattle.bay_c.specs.contracts.inside.Inside.{the_row};
ghost use Rattle.bay_c.specs.declared.inside.Inside.{Inside};
ghost use Rattle.box_parts.specs.Owned.{slot_owns, holds};

use crate::inside::Inside;
use box_parts::Parts;
use std::alloc::Global;
use std::marker::Model;

/// A pointer to what a handle has, or nothing.
#[repr(C)]
#[derive(Drop)]
pub struct Slot {
    at: *mut u8,
    pub ghost held: { Option Inside } by { coded_option the_row.coded },
}

impl Model for Slot {
    ghost also_owns = { λ h. slot_owns the_row h.at h.held };
}

// What C passes from one thread to another must be of such a type.
unsafe impl Send for Slot {}

impl Slot {
    pub(crate) fn vacant() -> Slot
        ensures { result.held ≡ None }
    {
        Slot {
            at: std::ptr::null_mut(),
        }
    }

    pub(crate) fn of(parts: Parts<Inside, Global>) -> Slot
        ensures { result.held ≡ Some parts.value }
    {
        let Parts { ptr, alloc: _ } = parts;
        Slot { at: ptr as *mut u8 }
    }

    pub(crate) fn into_parts(self, alloc: Global) -> Parts<Inside, Global>
        requires { holds self.held ≡ 1 }
        ensures { Some result.value ≡ self.held }
    {
        let Slot { at } = self;
        Parts {
            ptr: at as *mut Inside,
            alloc,
        }
    }
}
