//! What is wrong with an entry of a log.
ghost use Rattle.std.specs.Prelude.{◌≡◌, map};
ghost use Rattle.report_reader.specs.Form.{entry_text, job_text};
ghost use Rattle.timeline.specs.Faults.{entry_cause, is_out_of_order};

use crate::entries::same_session;
use crate::fault::EntryCause;
use crate::jobs::job_number;
use lab_plan::{MOST_COMMANDS, MOST_SESSIONS};
use report_reader::{EntryLine, JobLine};

/// What is wrong with an entry by itself.
pub(crate) fn entry_cause(jobs: &[JobLine], entry: &EntryLine) -> Option<EntryCause>
    ensures { result ≡ entry_cause (map job_text jobs.now) (entry_text entry.now) }
{
    if job_number(jobs, entry.job).is_none() {
        return Some(EntryCause::NoJobLine);
    }
    if entry.session > MOST_SESSIONS || entry.length > MOST_COMMANDS {
        return Some(EntryCause::LimitPassed);
    }
    if entry.session == 0 || entry.place == 0 || entry.length < entry.place {
        return Some(EntryCause::NoSuchPlace);
    }
    None
}

/// Whether an entry is of the session of the one before it and doesn't follow it.
pub(crate) fn is_out_of_order(before: &EntryLine, entry: &EntryLine) -> bool
    ensures { result ≡ is_out_of_order (entry_text before.now) (entry_text entry.now) }
{
    same_session(before, entry) && !(before.length == entry.length && before.place < entry.place)
}
