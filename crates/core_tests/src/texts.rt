//! The lines of texts, and sinks that take little, nothing, or fail.
use interleaving::World;
use lab_plan::Plan;
use report::{ToWrite, WriteFault, write_script, write_world};
use std::alloc::{AllocError, Allocator};
use std::io::{self, Write};

mod lines;
mod sinks;

/// Two jobs, each of which adds 1 on the scale in its one session.
const TWO: &str = "lab 1\njob a\nsession\nscale add 1\nend\njob b\nsession\nscale add 1\nend\n";

/// Takes at most `most` bytes a call, and fails, in a flush too, once `calls` calls are used.
#[derive(Drop)]
struct Slow<A: Allocator> {
    bytes: Vec<u8, A>,
    most: usize,
    calls: usize,
}

impl<A: Allocator> Write for Slow<A> {
    fn write(&mut self, bytes: &[u8]) -> io::Result<usize> {
        if self.calls == 0 {
            return Err(io::Error::from(AllocError));
        }
        self.calls -= 1;
        let count = bytes.len().min(self.most);
        self.bytes.extend_from_slice(&bytes[..count])?;
        Ok(count)
    }

    fn flush(&mut self) -> io::Result<()> {
        if self.calls == 0 {
            return Err(io::Error::from(AllocError));
        }
        Ok(())
    }
}

/// What a sink takes, at most this many bytes a call and no more calls than these, and what the writing answers.
fn report_by<A: Allocator, B: Allocator>(
    alloc: B,
    world: &World<'_, A>,
    most: usize,
    calls: usize,
) -> (Vec<u8, B>, Result<(), WriteFault>) {
    let mut slow = Slow {
        bytes: Vec::new(alloc),
        most,
        calls,
    };
    let answer = write_world(world, &mut ToWrite::new(&mut slow));
    (slow.bytes, answer)
}

fn script_by<A: Allocator, B: Allocator>(
    alloc: B,
    plan: &Plan<A>,
    most: usize,
    calls: usize,
) -> (Vec<u8, B>, Result<(), WriteFault>) {
    let mut slow = Slow {
        bytes: Vec::new(alloc),
        most,
        calls,
    };
    let answer = write_script(plan, &mut ToWrite::new(&mut slow));
    (slow.bytes, answer)
}
