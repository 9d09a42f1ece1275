//! What holds of journals' texts. Each law is the contract of a function that does nothing.
ghost use Rattle.journal_texts.specs.Reading.{FilesAreRead, BeginningsAreRead, CutsAreParts, TextsArePieces, SessionsAreReadBack, TextsStay};

use round_trace::laws::steps_give_events;

/// A journal that was written is read as what was written.
pub fn files_are_read()
    ensures { FilesAreRead }
{
    steps_give_events();
}

/// So is each beginning of it that ends with a whole line, as a beginning of that.
pub fn beginnings_are_read()
    ensures { BeginningsAreRead }
{
    steps_give_events();
}

/// The texts of a lab that sessions came to, cut at any byte, are the first of them up to the last whole line. Whatever is left of the one that was
/// cut is such a text too.
pub fn cuts_are_parts()
    ensures { CutsAreParts }
{}

/// Texts that were taken one after another make such a journal.
pub fn texts_are_pieces()
    ensures { TextsArePieces }
{}

/// The lines of a session that came are read as that session.
pub fn sessions_are_read_back()
    ensures { SessionsAreReadBack }
{}

/// What is told of a session stays the same, whatever sessions come behind it.
pub fn texts_stay()
    ensures { TextsStay }
{}
