//! What no run of the built program shows: readers and writers that fail, memory that runs out, threads that meet. The runs that can be
//! had are cases of `checks/cases`.
ghost use Rattle.std.specs.Prelude.{◌≡◌, true};
ghost use Rattle.labrun_words.specs.Words.{MayRun};

use lab_program::{FromRead, Outcome, RunFault};
use lab_runs::{Gate, Task, run_task};
use report::ToWrite;
use std::alloc::{AllocError, Allocator, Global};
use std::io::{self, ErrorKind, Read, Write};
use std::process::Abort;
use std::sync::Wait;
use std::thread::Threads;

mod ends;
mod faults;
mod gates;
mod memory;
mod threads;
mod words;

/// Two jobs, each of which adds 1 on the scale in its one session: nine lines.
const TWO_ADD: &str = "lab 1\njob a\nsession\nscale add 1\nend\njob b\nsession\nscale add 1\nend\n";

/// A reader of a text, at most `most` bytes a call, that fails with `error` once `calls` calls are used.
#[derive(Drop)]
struct Pieces<'a> {
    rest: &'a [u8],
    most: usize,
    calls: usize,
    error: ErrorKind,
}

impl Read for &mut Pieces<'_> {
    fn read(&mut self, buffer: &mut [u8]) -> io::Result<usize> {
        if self.calls == 0 {
            return Err(io::Error::from(self.error));
        }
        self.calls -= 1;
        let count = self.rest.len().min(buffer.len()).min(self.most);
        let (front, rest) = self.rest.split_at(count);
        buffer[..count].copy_from_slice(front);
        self.rest = rest;
        Ok(count)
    }
}

/// A writer that takes at most `most` bytes a call, and is interrupted, and fails to flush, once `calls` calls are used.
#[derive(Drop)]
struct Slow {
    bytes: Vec<u8>,
    most: usize,
    calls: usize,
}

impl Write for &mut Slow {
    fn write(&mut self, bytes: &[u8]) -> io::Result<usize> {
        if self.calls == 0 {
            return Err(io::Error::from(ErrorKind::Interrupted));
        }
        self.calls -= 1;
        let count = bytes.len().min(self.most);
        self.bytes.extend_from_slice(&bytes[..count])?;
        Ok(count)
    }

    fn flush(&mut self) -> io::Result<()> {
        if self.calls == 0 {
            return Err(io::Error::from(AllocError));
        }
        Ok(())
    }
}

/// What a writer has taken, and what the run answers.
type Told = (Vec<u8>, Result<Outcome, RunFault>);

/// At most this many bytes a call, and no more calls than these.
type Calls = (usize, usize);

/// A reader that gives a text at once, and a writer that takes one.
const AMPLE: Calls = (4096, 1_000_000);

/// A reader of a text, by its calls, behind which it is interrupted.
fn pieces_of(text: &[u8], reads: Calls) -> Pieces<'_> {
    Pieces {
        rest: text,
        most: reads.0,
        calls: reads.1,
        error: ErrorKind::Interrupted,
    }
}

fn may_run(task: &Task) -> bool
    ensures { result ≡ true → MayRun task.now }
{
    match task {
        Task::Threads { workers, .. } => 1 <= *workers && *workers <= 32,
        _ => true,
    }
}

/// A run on this heap, whose turns pass the gate, over a reader, by calls of a writer that takes its memory elsewhere.
fn told<R: Threads + Wait + Abort + Sync, A: Allocator + Copy + Send + Sync, G: Gate>(
    rt: &R,
    heap: A,
    out: Global,
    task: Task,
    gate: &G,
    mut pieces: Pieces<'_>,
    writes: Calls,
) -> Told {
    let mut slow = Slow {
        bytes: Vec::new(out),
        most: writes.0,
        calls: writes.1,
    };
    let mut source = FromRead::new(&mut pieces);
    let mut sink = ToWrite::new(&mut slow);
    assert!(rt; may_run(&task));
    let answer = run_task(task, rt, heap, &mut source, &mut sink, gate);
    (slow.bytes, answer)
}
