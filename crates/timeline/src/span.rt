//! The columns of a session.
ghost use Rattle.std.specs.Prelude.{◌≡◌, map, slice_get};
ghost use Rattle.report_reader.specs.Form.{entry_text, job_text};
ghost use Rattle.timeline.specs.Spans.{slot_of, span_of};

use crate::jobs::job_number;
use lab_plan::{MOST_JOBS, MOST_SESSIONS};
use report_reader::{EntryLine, JobLine};

/// One for each session that a lab may have.
pub(crate) const SLOTS: usize = MOST_JOBS * MOST_SESSIONS as usize;

/// The columns of a session: `width` of them from `start` on, which is counted from 0.
#[derive(Clone, Copy, PartialEq, Eq, Debug)]
pub struct Span {
    pub start: u32,
    pub width: u32,
}

/// Where the columns of an entry's session are kept: each job has as many as it may have sessions.
#[tactic(auto, unfolding(crate::specs::Spans::slot_of))]
pub(crate) fn slot_of(jobs: &[JobLine], entry: &EntryLine) -> Option<usize>
    ensures { result ≡ slot_of (map job_text jobs.now) (entry_text entry.now) }
{
    let job = job_number(jobs, entry.job)?;
    if job < MOST_JOBS && 1 <= entry.session && entry.session <= MOST_SESSIONS {
        Some(MOST_SESSIONS as usize * job + (entry.session - 1) as usize)
    } else {
        None
    }
}

/// The columns that are kept in a slot.
pub(crate) fn span_at(spans: &[Span], slot: usize) -> Option<Span>
    ensures { result ≡ slice_get spans.now slot }
{
    spans.get(slot).copied()
}

/// The columns of an entry's session, if it has some.
#[tactic(auto, unfolding(crate::specs::Spans::span_of))]
pub fn span_of(jobs: &[JobLine], spans: &[Span], entry: &EntryLine) -> Option<Span>
    ensures { result ≡ span_of (map job_text jobs.now) spans.now (entry_text entry.now) }
{
    let slot = slot_of(jobs, entry)?;
    span_at(spans, slot)
}
