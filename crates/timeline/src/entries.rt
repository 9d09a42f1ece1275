//! Entries of one session.
ghost use Rattle.std.specs.Prelude.{◌≡◌};
ghost use Rattle.report_reader.specs.Form.{entry_text};
ghost use Rattle.timeline.specs.Spans.{is_same_session};

use report_reader::EntryLine;

/// Whether both are of one session.
pub fn same_session(a: &EntryLine, b: &EntryLine) -> bool
    ensures { result ≡ is_same_session (entry_text a.now) (entry_text b.now) }
{
    a.job == b.job && a.session == b.session
}
