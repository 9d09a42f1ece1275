//! Writers that fail under a view.
use journal_views::run_steps;
use lab_program::{FromRead, RunFault};
use lab_views::{View, ViewFault, run_view};
use report::ToWrite;
use std::alloc::AllocError;
use std::io::{self, Write};

/// A writer that fails.
#[derive(Drop)]
struct Failing;

impl Write for Failing {
    fn write(&mut self, _bytes: &[u8]) -> io::Result<usize> {
        Err(io::Error::from(AllocError))
    }

    fn flush(&mut self) -> io::Result<()> {
        Ok(())
    }
}

#[test]
fn writer_fails(rt: HostRuntime) {
    let mut source = FromRead::new(b"lab 1".as_slice());
    let mut sink = ToWrite::new(Failing);
    let answer = run_view(View::Explain, rt.alloc(), &mut source, &mut sink, &mut None);
    assert!(rt; answer == Err(ViewFault::OfScript(RunFault::Write)));
}

/// A writer that takes nothing.
#[derive(Drop)]
struct Full;

impl Write for Full {
    fn write(&mut self, _bytes: &[u8]) -> io::Result<usize> {
        Ok(0)
    }

    fn flush(&mut self) -> io::Result<()> {
        Ok(())
    }
}

#[test]
fn writer_of_a_journal_fails(rt: HostRuntime) {
    let mut source = FromRead::new(b"lab 1\n".as_slice());
    let mut sink = ToWrite::new(Full);
    assert!(rt; run_steps(rt.alloc(), &mut source, &mut sink) == Err(RunFault::Write));
}
