//! Readers and writers that give little, take little, or fail.
use super::{AMPLE, Calls, Pieces, Slow, TWO_ADD, Told, pieces_of, told};
use crate::rows::check;
use lab_program::{FromRead, Outcome, RunFault, Source};
use lab_runs::{NoGate, Task, run_rounds};
use report::ToWrite;
use std::alloc::Global;
use std::io::{self, ErrorKind, Read};
use std::process::Abort;
use std::sync::Wait;
use std::thread::Threads;

/// The report of two jobs before their first event.
const REPORT: &[u8] =
    b"lab 1\ninstrument scale 0\njob a sessions 0 of 1 meals 0 waiting\njob b sessions 0 of 1 meals 0 waiting\nunfinished\n";

/// Where its lines begin.
const REPORT_LINES: &[usize] = &[0, 6, 25, 63, 101];

/// The report of two jobs that each added 1.
const BOTH_ADDED: &[u8] =
    b"lab 1\ninstrument scale 2\na 1 1/1 add 1 = 1\nb 1 1/1 add 1 = 2\njob a sessions 1 of 1 meals 0 retired\njob b sessions 1 of 1 meals 1 retired\nfinished\n";

/// The script of two jobs in version 2.
const UPGRADED: &[u8] =
    b"lab 2\njob a\nsession\nscale add 1\nend\njob b\nsession\nscale add 1\nend\n";

/// Its counts.
const COUNTS: &[u8] = b"ok jobs 2 instruments 1 edges 1 sessions 2 commands 2\n";

/// What a run answers once its text has gone out.
type Answer = Result<Outcome, RunFault>;

const STOPPED: Answer = Ok(Outcome::Unfinished);

const DONE: Answer = Ok(Outcome::Finished);

/// And if a write or a read failed.
const NOT_WRITTEN: Answer = Err(RunFault::Write);

const NOT_READ: Answer = Err(RunFault::Read);

/// Runs of that script, one of each kind and one that takes turns: what each answers, what it writes, and where the lines of that begin.
const RUNS: [(Task, Answer, &[u8], &[usize]); 6] = [
    (Task::Replay, STOPPED, REPORT, REPORT_LINES),
    (Task::Rounds { limit: 0 }, STOPPED, REPORT, REPORT_LINES),
    (
        Task::Threads {
            workers: 2,
            turns: 0,
        },
        STOPPED,
        REPORT,
        REPORT_LINES,
    ),
    (
        Task::Rounds { limit: 9 },
        DONE,
        BOTH_ADDED,
        &[0, 6, 25, 43, 61, 99, 137],
    ),
    (Task::Check, DONE, COUNTS, &[0]),
    (
        Task::Upgrade,
        DONE,
        UPGRADED,
        &[0, 6, 12, 20, 32, 36, 42, 50, 62],
    ),
];

/// A run over this reader and such a writer answers so, and this is written.
fn ends<R: Threads + Wait + Abort + Sync>(
    rt: &R,
    alloc: Global,
    task: Task,
    pieces: Pieces<'_>,
    writes: Calls,
    answer: Answer,
    text: &[u8],
) {
    let row = (task, (pieces.most, pieces.calls), writes);
    let (written, came) = told(rt, alloc, alloc, task, &NoGate, pieces, writes);
    check(rt, row, came, answer);
    check(rt, row, written.as_slice(), text);
}

const LENGTHS: [usize; 5] = [1, 2, 7, 80, 5000];

#[test]
fn pieces_of_any_length(rt: HostRuntime) {
    for (task, answer, text, _) in &RUNS {
        for most in &LENGTHS {
            let pieces = pieces_of(TWO_ADD.as_bytes(), (*most, 1000));
            ends(&rt, rt.alloc(), *task, pieces, AMPLE, *answer, text);
        }
    }
}

/// The k-th read fails, for each k up to the one that finds the end.
fn reads_fail<R: Threads + Wait + Abort + Sync>(
    rt: &R,
    alloc: Global,
    task: Task,
    error: ErrorKind,
) {
    let text = TWO_ADD.as_bytes();
    for calls in 0..text.len() + 1 {
        let pieces = Pieces {
            rest: text,
            most: 1,
            calls,
            error,
        };
        ends(rt, alloc, task, pieces, AMPLE, NOT_READ, b"");
    }
}

const ERRORS: [ErrorKind; 3] = [
    ErrorKind::Interrupted,
    ErrorKind::PermissionDenied,
    ErrorKind::OutOfMemory,
];

/// Each error of a reader is a read fault, also one that tells of memory. With one read more each task writes its text.
#[test]
fn reader_fails(rt: HostRuntime) {
    let text = TWO_ADD.as_bytes();
    for (task, answer, wanted, _) in &RUNS {
        for error in &ERRORS {
            reads_fail(&rt, rt.alloc(), *task, *error);
        }
        let pieces = pieces_of(text, (1, text.len() + 1));
        ends(&rt, rt.alloc(), *task, pieces, AMPLE, *answer, wanted);
    }
}

/// Gives `#` for ever, and counts what it gave.
#[derive(Drop)]
struct Hashes {
    given: u64,
}

impl Read for &mut Hashes {
    fn read(&mut self, buffer: &mut [u8]) -> io::Result<usize> {
        buffer.fill(b'#');
        self.given = self.given.saturating_add(buffer.len() as u64);
        Ok(buffer.len())
    }
}

/// What a run by rounds tells of a reader, on which it ends by itself.
fn told_of_hashes(alloc: Global, hashes: &mut Hashes) -> Told {
    let mut slow = Slow {
        bytes: Vec::new(alloc),
        most: 4096,
        calls: 1000,
    };
    let mut source = FromRead::new(hashes);
    let mut sink = ToWrite::new(&mut slow);
    let answer = run_rounds(alloc, &mut source, &mut sink, 9);
    (slow.bytes, answer)
}

#[test]
fn reader_without_end(rt: HostRuntime) {
    let mut hashes = Hashes { given: 0 };
    let (written, answer) = told_of_hashes(rt.alloc(), &mut hashes);
    check(&rt, "answer", answer, Err(RunFault::TooLong));
    check(&rt, "written", written.len(), 0);
    check(&rt, "given", hashes.given, 16_777_217);
}

/// A run over the script by calls of the writer.
fn writes<R: Threads + Wait + Abort + Sync>(
    rt: &R,
    alloc: Global,
    task: Task,
    calls: Calls,
    answer: Answer,
    text: &[u8],
) {
    let pieces = pieces_of(TWO_ADD.as_bytes(), AMPLE);
    ends(rt, alloc, task, pieces, calls, answer, text);
}

/// A byte a call: if the k-th call fails, the flush counted, the bytes before it; else the whole text.
fn writes_bytes<R: Threads + Wait + Abort + Sync>(
    rt: &R,
    alloc: Global,
    task: Task,
    answer: Answer,
    text: &[u8],
) {
    for calls in 0..text.len() {
        writes(rt, alloc, task, (1, calls), NOT_WRITTEN, &text[..calls]);
    }
    writes(rt, alloc, task, (1, text.len()), NOT_WRITTEN, text);
    writes(rt, alloc, task, (1, 1000), answer, text);
}

/// A line a call: if the k-th call fails, the lines before it; and then one flush, whose failure is reported.
fn writes_lines<R: Threads + Wait + Abort + Sync>(
    rt: &R,
    alloc: Global,
    task: Task,
    answer: Answer,
    text: &[u8],
    lines: &[usize],
) {
    for (calls, begin) in lines.iter().enumerate() {
        let before = &text[..text.len().min(*begin)];
        writes(rt, alloc, task, (4096, calls), NOT_WRITTEN, before);
    }
    let all = lines.len();
    writes(rt, alloc, task, (4096, all), NOT_WRITTEN, text);
    writes(rt, alloc, task, (4096, all.saturating_add(1)), answer, text);
}

#[test]
fn writer_fails(rt: HostRuntime) {
    for (task, answer, text, lines) in &RUNS {
        writes_bytes(&rt, rt.alloc(), *task, *answer, text);
        writes_lines(&rt, rt.alloc(), *task, *answer, text, lines);
        writes(&rt, rt.alloc(), *task, (0, 1000), NOT_WRITTEN, b"");
    }
}

/// How many bytes a read gives, and what then stands in the first of them.
type Given = (Option<usize>, [u8; 3]);

fn read_into(source: &mut impl Source, buffer: &mut [u8; 8]) -> Given {
    let count = source.read(buffer.as_mut_slice()).ok();
    (count, [buffer[0], buffer[1], buffer[2]])
}

const GIVEN: [Given; 4] = [
    (Some(3), [b'l', b'a', b'm']),
    (Some(1), [b'p', b'a', b'm']),
    (Some(0), [b'p', b'a', b'm']),
    (None, [b'p', b'a', b'm']),
];

/// A source is read to its end, and gives nothing more there.
#[test]
fn source_reads(rt: HostRuntime) {
    let mut pieces = pieces_of(b"lamp", (3, 3));
    let mut source = FromRead::new(&mut pieces);
    let mut buffer = [0u8; 8];
    for (row, wanted) in GIVEN.iter().enumerate() {
        let came = read_into(&mut source, &mut buffer);
        check(&rt, row, came, *wanted);
    }
}
