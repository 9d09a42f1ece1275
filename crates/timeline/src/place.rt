//! Columns for the sessions: a session is placed once it stands next in each log that has it and among its job's own, right of all
//! that stand before it there.
use crate::span::{SLOTS, Span, slot_of};
use lab_plan::{MOST_JOBS, MOST_SESSIONS};
use report_reader::{EntryLine, JobLine, Log};
use std::alloc::{AllocError, Allocator};

/// A session's part of a log: where the session's columns are kept, and the part's length.
#[derive(Clone, Copy)]
struct Part {
    slot: usize,
    length: u32,
}

/// A log, or a job's own sessions, by parts, of which those before `next` are placed, and the end of the last of these.
#[derive(Drop)]
struct Row<A: Allocator> {
    parts: Vec<Part, A>,
    next: usize,
    end: u32,
}

/// How many rows have a session as their next, where it may start at the soonest, and its longest part.
#[derive(Clone, Copy)]
struct RowsReady {
    rows: u32,
    start: u32,
    width: u32,
}

impl<A: Allocator> Row<A> {
    fn next(&self) -> Option<Part> {
        self.parts.get(self.next).copied()
    }

    /// Behind this session, if it is next there.
    fn pass(&mut self, slot: usize, end: u32) {
        if let Some(part) = self.next() {
            if part.slot == slot {
                self.next = self.next.saturating_add(1);
                self.end = end;
            }
        }
    }
}

/// Whether both are one slot, or none.
fn is_same(one: Option<usize>, other: Option<usize>) -> bool {
    match (one, other) {
        (Some(one), Some(other)) => one == other,
        (None, None) => true,
        _ => false,
    }
}

/// The parts of a log.
fn row_of<A: Allocator + Copy>(
    alloc: A,
    jobs: &[JobLine],
    entries: &[EntryLine],
) -> Result<Row<A>, AllocError> {
    let mut parts = Vec::new(alloc);
    let mut last = None;
    for entry in entries {
        let slot = slot_of(jobs, entry);
        if !is_same(slot, last) {
            if let Some(slot) = slot {
                let length = entry.length;
                parts.push(Part { slot, length })?;
            }
            last = slot;
        }
    }
    Ok(Row {
        parts,
        next: 0,
        end: 0,
    })
}

/// The rows of the logs.
fn rows_of<'a, A: Allocator + Copy>(
    alloc: A,
    jobs: &[JobLine],
    logs: &[Log<'a, A>],
) -> Result<Vec<Row<A>, A>, AllocError> {
    let mut rows = Vec::new(alloc);
    for log in logs {
        rows.push(row_of(alloc, jobs, log.entries())?)?;
    }
    Ok(rows)
}

/// The row of a job: its own sessions, each as long as a log makes it.
fn own_row<A: Allocator + Copy>(
    alloc: A,
    own: &[(usize, usize)],
    job: usize,
) -> Result<Row<A>, AllocError> {
    let mut parts = Vec::new(alloc);
    for &(slot, next) in own {
        if slot / MOST_SESSIONS as usize == job {
            if parts.is_empty() {
                parts.push(Part { slot, length: 0 })?;
            }
            let slot = next;
            parts.push(Part { slot, length: 0 })?;
        }
    }
    Ok(Row {
        parts,
        next: 0,
        end: 0,
    })
}

/// Adds a row for each job.
fn add_own_rows<A: Allocator + Copy>(
    alloc: A,
    own: &[(usize, usize)],
    rows: &mut Vec<Row<A>, A>,
) -> Result<(), AllocError> {
    for job in 0..MOST_JOBS {
        rows.push(own_row(alloc, own, job)?)?;
    }
    Ok(())
}

/// Counts the parts of a row, each for its session.
fn count_row<A: Allocator>(counts: &mut [u32], row: &Row<A>) {
    for part in &row.parts {
        let slot = part.slot;
        if slot < counts.len() {
            counts[slot] = counts[slot].saturating_add(1);
        }
    }
}

/// How many parts each session has.
fn counts_of<A: Allocator + Copy>(alloc: A, rows: &[Row<A>]) -> Result<Vec<u32, A>, AllocError> {
    let mut counts = vec![in alloc; 0; SLOTS]?;
    for row in rows {
        count_row(&mut counts, row);
    }
    Ok(counts)
}

/// How a session is waited for.
fn waiting_for<A: Allocator>(rows: &[Row<A>], slot: usize) -> RowsReady {
    let mut waiting = RowsReady {
        rows: 0,
        start: 0,
        width: 0,
    };
    for row in rows {
        if let Some(part) = row.next() {
            if part.slot == slot {
                waiting.rows = waiting.rows.saturating_add(1);
                waiting.start = waiting.start.max(row.end);
                waiting.width = waiting.width.max(part.length);
            }
        }
    }
    waiting
}

fn pass_all<A: Allocator>(rows: &mut [Row<A>], slot: usize, end: u32) {
    for row in rows {
        row.pass(slot, end);
    }
}

/// Places the session of a part, if it is next in each log that has it and among its job's own.
fn place_part<A: Allocator>(
    rows: &mut [Row<A>],
    counts: &[u32],
    spans: &mut [Span],
    slot: usize,
) -> bool {
    let waiting = waiting_for(rows, slot);
    if slot >= counts.len() || counts[slot] != waiting.rows {
        return false;
    }
    let RowsReady { start, width, .. } = waiting;
    if slot < spans.len() {
        spans[slot] = Span { start, width };
    }
    pass_all(rows, slot, start.saturating_add(width));
    true
}

/// Places what can be placed of the next sessions of the logs, and says whether it was any.
fn place_next<A: Allocator>(rows: &mut [Row<A>], counts: &[u32], spans: &mut [Span]) -> bool {
    let mut any = false;
    for number in 0..rows.len() {
        if let Some(part) = rows[number].next() {
            if place_part(rows, counts, spans, part.slot) {
                any = true;
            }
        }
    }
    any
}

/// The greatest end of the rows.
fn last_end<A: Allocator>(rows: &[Row<A>]) -> u32 {
    let mut end = 0u32;
    for row in rows {
        end = end.max(row.end);
    }
    end
}

/// Columns for the sessions as far as the logs and the jobs' own orders don't contradict each other, and how many there are. The pairs are
/// of each session that logs have, with the next of its job.
pub(crate) fn place<'a, A: Allocator + Copy>(
    alloc: A,
    jobs: &[JobLine],
    logs: &[Log<'a, A>],
    own: &[(usize, usize)],
) -> Result<(Vec<Span, A>, u32), AllocError> {
    let mut rows = rows_of(alloc, jobs, logs)?;
    add_own_rows(alloc, own, &mut rows)?;
    let counts = counts_of(alloc, &rows)?;
    let none = Span { start: 0, width: 0 };
    let mut spans = vec![in alloc; none; SLOTS]?;
    for _ in 0..SLOTS {
        if !place_next(&mut rows, &counts, &mut spans) {
            break;
        }
    }
    let columns = last_end(&rows);
    Ok((spans, columns))
}
