//! Memory for tests that refuses one allocation: an allocator over another that counts what it is asked for. Threads may share it.
#![tactic(auto)]

ghost use Rattle.std.specs.Prelude.{◌≡◌, IfSome};

use std::alloc::{AllocError, Allocator};
use std::sync::atomic::{AtomicU64, Ordering};

/// An allocator that refuses one allocation, by its number, and takes all others from `inner`. Whatever is to be made, and whatever has to
/// grow, counts as one, from 1 on, on whichever thread. With the number 0 nothing is refused.
#[derive(Drop)]
pub struct RefusingHeap<B> {
    inner: B,
    refused: u64,
    allocations: AtomicU64,
}

impl<B> RefusingHeap<B> {
    pub fn new(inner: B, refused: u64) -> RefusingHeap<B> {
        RefusingHeap {
            inner,
            refused,
            allocations: AtomicU64::new(0),
        }
    }

    /// How many allocations it was asked for, the refused one counted.
    pub fn allocations(&self) -> u64 {
        self.allocations.load(Ordering::SeqCst)
    }

    /// What gives the next allocation, if it isn't the one that is refused.
    fn next(&self) -> Option<&B>
        ensures { IfSome result (λ lent. lent.now ≡ self.now.inner) }
    {
        let before = self.allocations.fetch_add(1, Ordering::SeqCst);
        if before.wrapping_add(1) == self.refused {
            return None;
        }
        Some(&self.inner)
    }
}

unsafe impl<B: Allocator> Allocator for RefusingHeap<B> {
    ghost dealloc_token = { λ heap ty ptr. B.dealloc_token heap.inner ty ptr };

    fn allocate(&self, size: usize, align: usize) -> Result<*mut u8, AllocError> {
        match self.next() {
            Some(lent) => lent.allocate(size, align),
            None => Err(AllocError),
        }
    }

    unsafe fn deallocate(&self, ptr: *mut u8, size: usize, align: usize) {
        self.inner.deallocate(ptr, size, align);
    }
}
