//! A box as the pointer and the allocator that it is made of, and back; and a word that is exchanged in one step.
#![tactic(auto)]

ghost use Rattle.std.specs.Prelude.{◌≡◌};
ghost use Rattle.std.specs.Box.Ownership.{box_owns};

mod word;

use std::alloc::Allocator;
use std::marker::Model;
pub use word::exchange;

/// A boxed value, as its pointer and the allocator of its block. It owns what the box owned.
pub struct Parts<T, A: Allocator> {
    pub ptr: *mut T,
    pub alloc: A,
    pub ghost value: { T },
}

impl<T, A: Allocator> Model for Parts<T, A> {
    ghost also_owns = { λ p. box_owns (A.dealloc_token p.alloc) T.row p.ptr p.value };
}

impl<T: Drop, A: Allocator> Parts<T, A> {
    /// The parts of a box.
    pub fn of(whole: Box<T, A>) -> Parts<T, A>
        ensures { result.value ≡ whole.value }
    {
        let (ptr, alloc) = Box::into_raw_with_allocator(whole);
        Parts { ptr, alloc }
    }

    /// The box of these parts.
    pub fn into_box(self) -> Box<T, A>
        ensures { result.value ≡ self.value }
    {
        let Parts { ptr, alloc } = self;
        unsafe { Box::from_raw(alloc, ptr) }
    }
}

// Whoever has the parts by `&` reaches nothing of the value.
unsafe impl<T: Send, A: Allocator + Send> Send for Parts<T, A> {}

unsafe impl<T: Send, A: Allocator + Send> Sync for Parts<T, A> {}
