//! Where bytes come from, as contracts see it.
ghost use Rattle.std.specs.Prelude.{◌≡◌, ◌+◌, ◌<◌, ℕ, List, Option, None, length, is_ok, if◌then◌else◌};
ghost use Rattle.std.specs.Io.{ReadsAtMost};
ghost use Rattle.std.specs.Io.KnownBytes.{ReadConsumes};

use report::{Failed, Tally};
use std::io::Read;

/// Where bytes come from.
pub trait Source {
    /// The bytes that reads will give, if the source can say.
    ghost left: { Self → Option (List ℕ) } = { λ _. None };

    /// How many reads have failed.
    ghost failures: { Self → ℕ };

    /// Reads some bytes into a nonempty buffer and says how many: 0 only at the end.
    fn read(&mut self, buffer: &mut [u8]) -> Result<usize, Failed>
        requires { 0 < length buffer.old }
        ensures bound { ReadsAtMost result buffer.new }
        ensures bytes { ReadConsumes (left self.old) (left self.new) result buffer.new }
        ensures count { failures self.new ≡ (if is_ok result then failures self.old else failures self.old + 1) };
}

/// A source over a reader of std. Any error of it is a failure.
#[derive(Drop)]
pub struct FromRead<R> {
    inner: R,
    failed: Tally,
}

impl<R: Read> FromRead<R> {
    /// A source over this reader, which has not failed yet.
    pub fn new(inner: R) -> FromRead<R>
        ensures left { ⟦<FromRead<R> as Source>⟧.left result ≡ R.remaining inner }
        ensures count { ⟦<FromRead<R> as Source>⟧.failures result ≡ 0 }
    {
        FromRead {
            inner,
            failed: Tally::new(),
        }
    }
}

impl<R: Read> Source for FromRead<R> {
    ghost left = { λ s. R.remaining s.inner };

    ghost failures = { λ s. s.failed.count };

    fn read(&mut self, buffer: &mut [u8]) -> Result<usize, Failed> {
        match self.inner.read(buffer) {
            Ok(n) => Ok(n),
            Err(_) => {
                self.failed = Tally::after(&self.failed);
                Err(Failed)
            }
        }
    }
}
