//! Reading the text of a report.
ghost use Rattle.std.specs.Prelude.{◌≡◌, map, MatchResult, Ok, Err};
ghost use Rattle.report_reader.specs.Reading.{Answers, AnswersParts};

use crate::fault::{ReportCause, ReportFault};
use crate::parts::parts;
use crate::reader::Reader;
use crate::report::Report;
use std::alloc::Allocator;

/// What a line gives, or its fault.
fn at_line<T>(line: usize, given: Result<T, ReportCause>) -> Result<T, ReportFault>
    ensures { MatchResult result (λ x. given ≡ Ok x) (λ fault. (given ≡ Err fault.cause) × (fault.line ≡ line)) }
{
    match given {
        Ok(x) => Ok(x),
        Err(cause) => Err(ReportFault { line, cause }),
    }
}

/// Reads parts of a text, each ended by a line feed, and what is left behind the last.
fn read_parts<'a, A: Allocator + Copy>(
    alloc: A,
    parts: &[&'a [u8]],
    tail: &[u8],
) -> Result<Report<'a, A>, ReportFault>
    ensures { AnswersParts (map (λ part. part.now) parts.now) tail.now result }
{
    let mut reader = Reader::new(alloc);
    let mut number = 1usize;
    for part in parts {
        at_line(number, reader.read(part))?;
        number += 1;
    }
    if !tail.is_empty() {
        let cause = ReportCause::NotWhole;
        return Err(ReportFault {
            line: number,
            cause,
        });
    }
    at_line(number, reader.finish())
}

/// Reads the text of a report, of version 1 or 2. Names are those of the text.
pub fn read_report<A: Allocator + Copy>(alloc: A, text: &[u8]) -> Result<Report<'_, A>, ReportFault>
    ensures { Answers text.now result }
{
    let Ok(parts) = parts(alloc, text, b'\n') else {
        let cause = ReportCause::NoMemory;
        return Err(ReportFault { line: 1, cause });
    };
    let last = parts.len() - 1;
    read_parts(alloc, &parts[..last], parts[last])
}
