//! Reading a script.
ghost use Rattle.script_reader.specs.Script.{Answers};

use crate::fault::{ScriptFault, at_line};
use crate::reader::Reader;
use bstr::ByteSlice;
use lab_plan::Plan;
use std::alloc::Allocator;

/// The most bytes of an input of the programs, and of a script for which a bench is opened (docs/FORMATS.md). Whoever takes these refuses
/// longer ones.
pub const MOST_BYTES: usize = 16_777_216;

/// Reads the text of a script, of version 1 or 2.
///
/// The plan is the one that the text means. Otherwise the fault is that of the first line that meets
/// a cause, with the first cause that it meets in the order of docs/FORMATS.md, or that of the text's
/// end; or it is that memory ran out at a line up to which no line meets a cause.
pub fn read_plan<A: Allocator + Copy>(alloc: A, text: &[u8]) -> Result<Plan<A>, ScriptFault>
    ensures { Answers text.now result }
{
    let mut reader = Reader::new(alloc);
    let mut number = 1usize;
    for line in text.lines() {
        at_line(number, reader.read(line))?;
        number += 1;
    }
    at_line(number, reader.finish())
}
