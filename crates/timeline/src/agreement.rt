//! Whether the logs of a report, and its jobs' own orders, agree with the columns of its sessions.
ghost use Rattle.std.specs.Prelude.{◌≡◌, ◌+◌, ◌≤◌, true, map, Some};
ghost use Rattle.std.specs.List.{All};
ghost use Rattle.report_reader.specs.Form.{entry_text, job_text};
ghost use Rattle.timeline.specs.Orders.{AreRight, IsRight};
ghost use Rattle.timeline.specs.Timelines.{TimelineView, Stands, GoesOn, IsRightOf, AllAgree, IsNextOf, EachNext};

use crate::entries::same_session;
use crate::span::{Span, span_at, span_of};
use report_reader::{EntryLine, JobLine, Log};
use std::alloc::Allocator;

/// Whether an entry stands within the columns of its session, and these below `columns`.
fn stands(jobs: &[JobLine], spans: &[Span], columns: u32, entry: &EntryLine) -> bool
    ensures { result ≡ true → Stands (map job_text jobs.now) (record { spans = spans.now; columns = columns }) (entry_text entry.now) }
{
    let Some(span) = span_of(jobs, spans, entry) else {
        return false;
    };
    let Some(end) = span.start.checked_add(span.width) else {
        return false;
    };
    1 <= entry.place && entry.place <= entry.length && entry.length <= span.width && end <= columns
}

/// Whether an entry goes on with the session of the one before it.
fn goes_on(before: &EntryLine, entry: &EntryLine) -> bool
    ensures { result ≡ true → GoesOn (entry_text before.now) (entry_text entry.now) }
{
    same_session(before, entry) && before.length == entry.length && before.place < entry.place
}

/// Whether columns end before others begin.
fn ends_before(left: Span, right: Span) -> bool
    ensures { result ≡ true → left.start + left.width ≤ right.start }
{
    match left.start.checked_add(left.width) {
        Some(end) => end <= right.start,
        None => false,
    }
}

/// Whether the session of an entry stands right of that of the one before it.
fn is_right_of(jobs: &[JobLine], spans: &[Span], before: &EntryLine, entry: &EntryLine) -> bool
    ensures { result ≡ true → IsRightOf (map job_text jobs.now) spans.now (entry_text before.now) (entry_text entry.now) }
{
    let Some(left) = span_of(jobs, spans, before) else {
        return false;
    };
    let Some(right) = span_of(jobs, spans, entry) else {
        return false;
    };
    ends_before(left, right)
}

/// Whether an entry may stand behind the one before it.
fn is_next(jobs: &[JobLine], spans: &[Span], before: &EntryLine, entry: &EntryLine) -> bool
    ensures { result ≡ true → IsNextOf (map job_text jobs.now) spans.now (entry_text before.now) (entry_text entry.now) }
{
    goes_on(before, entry) || is_right_of(jobs, spans, before, entry)
}

/// Whether each entry of a log stands within its session's columns.
fn all_stand(jobs: &[JobLine], spans: &[Span], columns: u32, entries: &[EntryLine]) -> bool
    ensures { result ≡ true → All (Stands (map job_text jobs.now) (record { spans = spans.now; columns = columns })) (map entry_text entries.now) }
{
    for entry in entries {
        if !stands(jobs, spans, columns, entry) {
            return false;
        }
    }
    true
}

/// Whether each entry of a log may stand behind the one before it.
fn all_follow(jobs: &[JobLine], spans: &[Span], entries: &[EntryLine]) -> bool
    ensures { result ≡ true → EachNext (IsNextOf (map job_text jobs.now) spans.now) (map entry_text entries.now) }
{
    for place in 0..entries.len().saturating_sub(1) {
        if !is_next(jobs, spans, &entries[place], &entries[place + 1]) {
            return false;
        }
    }
    true
}

/// Whether every log agrees with the columns of the sessions.
pub(crate) fn all_agree<'a, A: Allocator>(
    jobs: &[JobLine],
    spans: &[Span],
    columns: u32,
    logs: &[Log<'a, A>],
) -> bool
    ensures { result ≡ true → AllAgree (map job_text jobs.now) (record { spans = spans.now; columns = columns }) logs.now }
{
    for log in logs {
        let entries = log.entries();
        if !all_stand(jobs, spans, columns, entries) || !all_follow(jobs, spans, entries) {
            return false;
        }
    }
    true
}

/// Whether the session in one slot stands right of that in another.
fn is_right(spans: &[Span], x: usize, y: usize) -> bool
    ensures { result ≡ true → IsRight spans.now x y }
{
    let Some(left) = span_at(spans, x) else {
        return false;
    };
    let Some(right) = span_at(spans, y) else {
        return false;
    };
    ends_before(left, right)
}

/// Whether the second of each pair stands right of the first.
pub(crate) fn all_right(pairs: &[(usize, usize)], spans: &[Span]) -> bool
    ensures { result ≡ true → AreRight spans.now pairs.now }
{
    for &(x, y) in pairs {
        if !is_right(spans, x, y) {
            return false;
        }
    }
    true
}
