//! What holds of journals. Each law is the contract of a function that does nothing.
ghost use Rattle.lab_journal.specs.Laws.{JournalsFollow, JournalComesBack, BeginningsComeBack, SessionsComeBack, CutsComeBack, CutsBehindComeBack};
ghost use Rattle.lab_journal.specs.Writing.{StaysWritten};

use journal_texts::laws::{beginnings_are_read, files_are_read};
use round_trace::laws::steps_give_events;
use script_reader::laws::{one_meaning_with_steps, sessions_are_granted};

/// What was taken stays taken, whatever calls do, as long as no event is missed for want of room.
pub fn journals_follow()
    ensures { JournalsFollow }
{}

/// A journal comes back: it is read as the events that were taken, and a lab that is resumed from it stands where they lead, if
/// no command is in hand there.
pub fn journal_comes_back()
    ensures { JournalComesBack }
{
    files_are_read();
    one_meaning_with_steps();
}

/// So does each beginning of it that ends with a whole line: a lab that is resumed from it stands where the events up to there lead,
/// if no command is in hand there.
pub fn beginnings_come_back()
    ensures { BeginningsComeBack }
{
    beginnings_are_read();
    one_meaning_with_steps();
}

/// So does a journal with sessions that came: it is read as its script's plan with all of them, and as its events; and a lab that is resumed
/// from it has this plan, and stands where the events lead, if no command is in hand there.
pub fn sessions_come_back()
    ensures { SessionsComeBack }
{
    steps_give_events();
    one_meaning_with_steps();
}

/// So does a lab's journal that was cut at any byte behind its line `steps`: its whole lines are read as the script's plan with the sessions whose
/// lines are all there, and as the steps that are there; and a lab that is resumed from it has this plan, and has done these steps and the
/// commands that were in hand then, and nothing else.
pub fn cuts_come_back()
    ensures { CutsComeBack }
{
    steps_give_events();
    one_meaning_with_steps();
}

/// So does one that was cut behind some of its parts: these are all there, and what is left of the others.
pub fn cuts_behind_come_back()
    ensures { CutsBehindComeBack }
{
    steps_give_events();
    one_meaning_with_steps();
}

/// What is written of a lab that was opened kept is such a journal, whatever calls do, as long as no event is missed for want of room: what they do,
/// sessions that they add, what is taken, and a resume from a file that was cut.
pub fn stays_written()
    ensures { StaysWritten }
{
    sessions_are_granted();
}
