//! What holds of the texts of a journal. The law is the contract of a function that does nothing.
ghost use Rattle.journal_views.specs.Laws.{JournalIsReplayed};

use script_reader::laws::one_meaning_with_steps;

/// `labview steps` into `labrun replay` is the run of the journal: no text and no step of it is refused, and what a replay reports is the report of
/// exactly the journal's events.
pub fn journal_is_replayed()
    ensures { JournalIsReplayed }
{
    one_meaning_with_steps();
}
