//! A source over bytes in memory. No read of it fails.
ghost use Rattle.std.specs.Prelude.{◌≡◌, Some};

use lab_program::Source;
use report::Failed;

/// The bytes that are left.
#[derive(Drop)]
pub(crate) struct Bytes<'a> {
    rest: &'a [u8],
}

impl<'a> Bytes<'a> {
    /// A source of these bytes.
    pub(crate) fn new(rest: &'a [u8]) -> Bytes<'a>
        ensures left { ⟦<Bytes<'a> as Source>⟧.left result ≡ Some rest.now }
        ensures count { ⟦<Bytes<'a> as Source>⟧.failures result ≡ 0 }
    {
        Bytes { rest }
    }
}

impl Source for Bytes<'_> {
    ghost left = { λ s. Some s.rest.now };

    ghost failures = { λ _. 0 };

    fn read(&mut self, buffer: &mut [u8]) -> Result<usize, Failed> {
        let count = self.rest.len().min(buffer.len());
        let (front, rest) = self.rest.split_at(count);
        buffer[..count].copy_from_slice(front);
        self.rest = rest;
        Ok(count)
    }
}
