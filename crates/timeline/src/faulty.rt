//! Faults of a report that a look at each log by itself finds.
ghost use Rattle.std.specs.Prelude.{◌≡◌, ◌+◌, ◌<◌, ◌≤◌, true, false, None, length, map, IfSome, IfOk, IfErr};
ghost use Rattle.lab_plan.specs.Limits.{most_jobs, most_instruments};
ghost use Rattle.report_reader.specs.Form.{entry_text, job_text};
ghost use Rattle.timeline.specs.Faults.{FailsAt, HasFault, IsFaultOf, IsTwice, HasNone};
ghost use Rattle.timeline.specs.Clean.{IsCleanAt, IsClean, AllClean};

use crate::entries::same_session;
use crate::entry_faults::{entry_cause, is_out_of_order};
use crate::fault::{EntryCause, TimelineFault};
use crate::named_twice::job_twice;
use crate::span::{SLOTS, slot_of};
use lab_plan::{MOST_INSTRUMENTS, MOST_JOBS};
use report_reader::{EntryLine, JobLine, Log, Report};
use std::alloc::{AllocError, Allocator};

/// What is wrong with an entry of a log, counted from 0.
fn cause_at(jobs: &[JobLine], entries: &[EntryLine], place: usize) -> Option<EntryCause>
    requires { place < length entries.now }
    ensures some { IfSome result (λ cause. FailsAt (map job_text jobs.now) (map entry_text entries.now) place cause) }
    ensures none { result ≡ None → IsCleanAt (map job_text jobs.now) (map entry_text entries.now) place }
{
    let entry = &entries[place];
    if let Some(cause) = entry_cause(jobs, entry) {
        return Some(cause);
    }
    if place > 0 && is_out_of_order(&entries[place - 1], entry) {
        return Some(EntryCause::OutOfOrder);
    }
    None
}

/// The first entry of a log that something is wrong with, counted from 0.
fn log_fault(jobs: &[JobLine], entries: &[EntryLine]) -> Option<(usize, EntryCause)>
    ensures some { IfSome result (λ (place, cause). FailsAt (map job_text jobs.now) (map entry_text entries.now) place cause) }
    ensures none { result ≡ None → IsClean (map job_text jobs.now) (map entry_text entries.now) }
{
    for place in 0..entries.len() {
        if let Some(cause) = cause_at(jobs, entries, place) {
            return Some((place, cause));
        }
    }
    None
}

/// Whether the session of an entry stands before the entry before it, which is of another.
fn is_twice(entries: &[EntryLine], place: usize) -> bool
    requires { place + 1 < length entries.now }
    ensures { result ≡ true → IsTwice (map entry_text entries.now) (place + 1) }
{
    let entry = &entries[place + 1];
    if same_session(&entries[place], entry) {
        return false;
    }
    for begun in 0..place {
        if same_session(&entries[begun], entry) {
            return true;
        }
    }
    false
}

/// Marks a session, and says whether it was marked before.
fn mark(seen: &mut [bool], slot: Option<usize>) -> bool {
    let Some(slot) = slot else {
        return false;
    };
    if slot >= seen.len() {
        return false;
    }
    let before = seen[slot];
    seen[slot] = true;
    before
}

/// The first entry of a log, counted from 0, whose session the log has before it with another between.
fn twice_in<A: Allocator + Copy>(
    alloc: A,
    jobs: &[JobLine],
    entries: &[EntryLine],
) -> Result<Option<usize>, AllocError>
    ensures { IfOk result (λ found. IfSome found (λ place. IsTwice (map entry_text entries.now) place)) }
{
    let mut seen = vec![in alloc; false; SLOTS]?;
    for place in 0..entries.len() {
        let was_seen = mark(&mut seen, slot_of(jobs, &entries[place]));
        if was_seen && place > 0 && is_twice(entries, place - 1) {
            return Ok(Some(place));
        }
    }
    Ok(None)
}

/// The first entry that something is wrong with.
fn entry_fault<'a, A: Allocator>(
    jobs: &[JobLine],
    logs: &[Log<'a, A>],
) -> Option<(usize, usize, EntryCause)>
    ensures some { IfSome result (λ (instrument, entry, cause). HasFault (map job_text jobs.now) logs.now instrument entry cause) }
    ensures none { result ≡ None → AllClean (map job_text jobs.now) logs.now }
{
    for number in 0..logs.len() {
        if let Some((place, cause)) = log_fault(jobs, logs[number].entries()) {
            let instrument = number + 1;
            let entry = place + 1;
            return Some((instrument, entry, cause));
        }
    }
    None
}

/// The first entry whose session stands in two places of its log.
fn twice_fault<'a, A: Allocator + Copy>(
    alloc: A,
    jobs: &[JobLine],
    logs: &[Log<'a, A>],
) -> Result<Option<(usize, usize)>, AllocError>
    ensures { IfOk result (λ found. IfSome found (λ (instrument, entry). HasFault (map job_text jobs.now) logs.now instrument entry EntryCause.SessionTwice)) }
{
    for number in 0..logs.len() {
        if let Some(place) = twice_in(alloc, jobs, logs[number].entries())? {
            let instrument = number + 1;
            let entry = place + 1;
            return Ok(Some((instrument, entry)));
        }
    }
    Ok(None)
}

/// Looks at each log by itself.
fn check_logs<A: Allocator>(report: &Report<'_, A>) -> Result<(), TimelineFault>
    ensures clean { IfOk result (λ done. AllClean report.now.jobs report.now.logs) }
    ensures fault { IfErr result (λ fault. IsFaultOf report.now fault) }
{
    match entry_fault(report.jobs(), report.logs()) {
        Some(found) => Err(TimelineFault::Entry {
            instrument: found.0,
            entry: found.1,
            cause: found.2,
        }),
        None => Ok(()),
    }
}

/// Whether a report has no more jobs and instruments than a lab.
fn is_small<A: Allocator>(report: &Report<'_, A>) -> bool
    ensures yes { result ≡ true → (length report.now.jobs ≤ most_jobs) × (length report.now.logs ≤ most_instruments) }
    ensures no { result ≡ false → IsFaultOf report.now TimelineFault.LimitPassed }
{
    report.jobs().len() <= MOST_JOBS && report.logs().len() <= MOST_INSTRUMENTS
}

/// Looks at the limits, at the job lines, and at each log by itself.
pub(crate) fn check<A: Allocator>(report: &Report<'_, A>) -> Result<(), TimelineFault>
    ensures few { IfOk result (λ done. (length report.now.jobs ≤ most_jobs) × (length report.now.logs ≤ most_instruments)) }
    ensures clean { IfOk result (λ done. AllClean report.now.jobs report.now.logs) }
    ensures fault { IfErr result (λ fault. IsFaultOf report.now fault) }
{
    if !is_small(report) {
        return Err(TimelineFault::LimitPassed);
    }
    if let Some(number) = job_twice(report.jobs()) {
        let job = number + 1;
        return Err(TimelineFault::JobTwice { job });
    }
    check_logs(report)
}

/// The fault of a report whose logs agree with no columns.
pub(crate) fn contradiction<A: Allocator + Copy>(alloc: A, report: &Report<'_, A>) -> TimelineFault
    requires { HasNone report.now }
    ensures { IsFaultOf report.now result }
{
    match twice_fault(alloc, report.jobs(), report.logs()) {
        Ok(Some((instrument, entry))) => TimelineFault::Entry {
            instrument,
            entry,
            cause: EntryCause::SessionTwice,
        },
        Ok(None) => TimelineFault::Contradiction,
        Err(_) => TimelineFault::NoMemory,
    }
}
