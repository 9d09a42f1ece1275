//! A sink that keeps all that it takes. A write fails only if an allocation fails.
ghost use Rattle.std.specs.Prelude.{◌≡◌, [], Some};

use report::{Failed, Sink, Tally};
use std::alloc::Allocator;

/// The bytes that were taken.
#[derive(Drop)]
pub struct MemorySink<A: Allocator> {
    bytes: Vec<u8, A>,
    failed: Tally,
}

impl<A: Allocator> MemorySink<A> {
    /// A sink that has taken nothing yet.
    pub fn new(alloc: A) -> MemorySink<A>
        ensures { ⟦<MemorySink<A> as Sink>⟧.taken result ≡ Some [] }
    {
        MemorySink {
            bytes: Vec::new(alloc),
            failed: Tally::new(),
        }
    }

    /// All that was taken, and nothing else is left.
    pub fn into_bytes(self) -> Vec<u8, A>
        ensures { ⟦<MemorySink<A> as Sink>⟧.taken self ≡ Some result.items }
    {
        let MemorySink { bytes, failed: _ } = self;
        bytes
    }

    /// All that was taken.
    pub fn bytes(&self) -> &[u8]
        ensures { ⟦<MemorySink<A> as Sink>⟧.taken self.now ≡ Some result.now }
    {
        &self.bytes
    }
}

impl<A: Allocator> Sink for MemorySink<A> {
    ghost taken = { λ s. Some s.bytes.items };

    ghost failures = { λ s. s.failed.count };

    fn write(&mut self, bytes: &[u8]) -> Result<usize, Failed> {
        match self.bytes.extend_from_slice(bytes) {
            Ok(()) => Ok(bytes.len()),
            Err(_) => {
                self.failed = Tally::after(&self.failed);
                Err(Failed)
            }
        }
    }

    fn flush(&mut self) -> Result<(), Failed> {
        Ok(())
    }
}
