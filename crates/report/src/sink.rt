//! Where bytes go, as contracts see it.
ghost use Rattle.std.specs.Prelude.{◌≡◌, ◌+◌, ◌<◌, ◌≤◌, ℕ, List, Option, None, length, IfOk, is_ok, if◌then◌else◌};
ghost use Rattle.std.specs.Io.KnownBytes.{Keeps, WriteAppends};

use crate::tally::Tally;
use std::io::Write;

/// A write or a flush failed. Nothing more is said of it.
#[derive(Clone, Copy, Debug, PartialEq, Eq, Drop)]
pub struct Failed;

/// Where bytes go.
pub trait Sink {
    /// The bytes that were taken so far, if the sink tells them.
    ghost taken: { Self → Option (List ℕ) } = { λ _. None };

    /// How many writes and flushes have failed.
    ghost failures: { Self → ℕ };

    /// Takes some bytes from the front of a nonempty text, at least one, and says how many; if it fails, none.
    fn write(&mut self, bytes: &[u8]) -> Result<usize, Failed>
        requires { 0 < length bytes.now }
        ensures some { IfOk result (λ n. 0 < n) }
        ensures bound { IfOk result (λ n. n ≤ length bytes.now) }
        ensures bytes { WriteAppends (taken self.old) (taken self.new) result bytes.now }
        ensures count { failures self.new ≡ (if is_ok result then failures self.old else failures self.old + 1) };

    /// Passes on what was taken, and takes nothing itself.
    fn flush(&mut self) -> Result<(), Failed>
        ensures bytes { Keeps (taken self.old) (taken self.new) }
        ensures count { failures self.new ≡ (if is_ok result then failures self.old else failures self.old + 1) };
}

/// A sink over a writer of std. Any error of it, and a write of no byte, is a failure.
#[derive(Drop)]
pub struct ToWrite<W> {
    inner: W,
    failed: Tally,
}

impl<W: Write> ToWrite<W> {
    /// A sink over this writer, which has not failed yet.
    pub fn new(inner: W) -> ToWrite<W>
        ensures taken { ⟦<ToWrite<W> as Sink>⟧.taken result ≡ W.contents inner }
        ensures count { ⟦<ToWrite<W> as Sink>⟧.failures result ≡ 0 }
    {
        ToWrite {
            inner,
            failed: Tally::new(),
        }
    }
}

impl<W: Write> Sink for ToWrite<W> {
    ghost taken = { λ s. W.contents s.inner };

    ghost failures = { λ s. s.failed.count };

    fn write(&mut self, bytes: &[u8]) -> Result<usize, Failed> {
        match self.inner.write(bytes) {
            Ok(n) if 0 < n => Ok(n),
            _ => {
                self.failed = Tally::after(&self.failed);
                Err(Failed)
            }
        }
    }

    fn flush(&mut self) -> Result<(), Failed> {
        match self.inner.flush() {
            Ok(()) => Ok(()),
            Err(_) => {
                self.failed = Tally::after(&self.failed);
                Err(Failed)
            }
        }
    }
}
