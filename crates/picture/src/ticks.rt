//! The entries of a log, each by its place in it.
ghost use Rattle.std.specs.Prelude.{◌≡◌, ◌<◌, length, map};
ghost use Rattle.report_reader.specs.Form.{entry_text, job_text};
ghost use Rattle.picture.specs.Picture.{is_first, is_open, entry_at};

use crate::boxes::entry_line;
use crate::line::PictureLine;
use report_reader::{EntryLine, JobLine};
use timeline::{Span, job_number, same_session, span_of};

/// Whether an entry is the first of its session in its log.
#[tactic(auto, using(crate::proofs::Places::nth_spelled))]
fn is_first(entries: &[EntryLine], place: usize) -> bool
    requires { place < length entries.now }
    ensures { result ≡ is_first (map entry_text entries.now) place }
{
    place == 0 || !same_session(&entries[place - 1], &entries[place])
}

/// Whether an entry is of the session with which its log ends, and that isn't done there.
#[tactic(auto, using(crate::proofs::Places::nth_spelled))]
fn is_open(entries: &[EntryLine], place: usize) -> bool
    requires { place < length entries.now }
    ensures { result ≡ is_open (map entry_text entries.now) place }
{
    let last = &entries[entries.len() - 1];
    last.place < last.length && same_session(last, &entries[place])
}

/// What is drawn of an entry.
#[tactic(auto, unfolding(crate::specs::Picture::entry_at), using(crate::proofs::Places::nth_spelled))]
pub(crate) fn entry_at(
    jobs: &[JobLine],
    columns: u32,
    spans: &[Span],
    entries: &[EntryLine],
    place: usize,
) -> PictureLine
    requires { place < length entries.now }
    ensures { result ≡ entry_at (map job_text jobs.now) columns spans.now (map entry_text entries.now) place }
{
    let entry = &entries[place];
    let Some(job) = job_number(jobs, entry.job) else {
        return PictureLine::new();
    };
    let Some(span) = span_of(jobs, spans, entry) else {
        return PictureLine::new();
    };
    entry_line(
        job,
        columns,
        span,
        is_first(entries, place),
        is_open(entries, place),
        entry,
    )
}
