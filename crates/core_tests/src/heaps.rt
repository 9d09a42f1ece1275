//! Heaps of their own for tests in which memory runs out.
use linked_list_allocator::LocalHeap;
use std::alloc::Global;
use std::process::Abort;

/// The size of most of them.
pub(crate) const HEAP: usize = 65536;

pub(crate) fn heap_of(rt: &impl Abort, alloc: Global, size: usize) -> LocalHeap {
    match LocalHeap::new(alloc, size) {
        Ok(heap) => heap,
        Err(_) => panic!(rt; "no heap"),
    }
}

/// Takes all of a heap of that size but so much room.
pub(crate) fn ballast_of<'a>(
    rt: &impl Abort,
    heap: &'a LocalHeap,
    room: usize,
) -> Vec<u8, &'a LocalHeap> {
    assert!(rt; room <= HEAP - 256);
    match Vec::with_capacity(heap, HEAP - 256 - room) {
        Ok(ballast) => ballast,
        Err(_) => panic!(rt; "no ballast"),
    }
}
