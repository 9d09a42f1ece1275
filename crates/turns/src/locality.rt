//! What one event changes and reads, what a job knows by its own events, and what stays over legal lists.
ghost use Rattle.legal_steps.specs.Fitting.{Fits};
ghost use Rattle.legal_steps.specs.Holding.{AreTruthful, IsExclusive};
ghost use Rattle.legal_steps.specs.Precedence.{IsAcyclic};
ghost use Rattle.turns.specs.Locality.{AfterEvery, ChangesOneEdge, ChangesOneLog, ChangesOneSeat, CountsItself, EntryReadsAlike, FitTheirWords};
ghost use Rattle.turns.specs.Locality.{GroupsChangeOneSeatAndEdge, HasOneEntryEach, HasOneReaching, HoldsWhatItReaches, IsLegalInParts, KeepsAll};
ghost use Rattle.turns.specs.Locality.{KeepsReachedLog, KnowsItself, KnowsWhatItSaw, LeadsOn, ReadsAlike, RestsAtNoCommand, StaysRetired};

/// After an event there are as many seats, edges and logs as before.
pub fn keeps_all()
    ensures { KeepsAll }
{}

/// An event changes one seat at most: that of the job that acts, as its seat and the event say.
pub fn changes_one_seat()
    ensures { ChangesOneSeat }
{}

/// An event changes one edge at most: that of an exchange, as the edge and the event say.
pub fn changes_one_edge()
    ensures { ChangesOneEdge }
{}

/// An event changes one log at most: that of an Act, which has one more entry.
pub fn changes_one_log()
    ensures { ChangesOneLog }
{}

/// A group of moves of one job on one edge sets and clears marks of its job for that edge, and changes that edge.
pub fn groups_change_one_seat_and_edge()
    ensures { GroupsChangeOneSeatAndEdge }
{}

/// Whether an event is legal depends on the seat of its job, on the edge of an exchange or a look, and on how far
/// the job is that a glance sees; on nothing else.
pub fn reads_alike()
    ensures { ReadsAlike }
{}

/// The entry of a job's next command depends on the seat of the job and on the log of the command's instrument.
pub fn entry_reads_alike()
    ensures { EntryReadsAlike }
{}

/// The seat of a job is what its own events make of it, whatever events of others stand between them.
pub fn knows_itself()
    ensures { KnowsItself }
{}

/// What a job knows of an edge after a look at it is what the look saw.
pub fn knows_what_it_saw()
    ensures { KnowsWhatItSaw }
{}

/// The meals that a job began, and the sessions that it ended or gave up, are counted in its own events.
pub fn counts_itself()
    ensures { CountsItself }
{}

/// Two lists of events one after another lead where the second leads from where the first led.
pub fn leads_on()
    ensures { LeadsOn }
{}

/// Two lists of events one after another are legal exactly if each is, the second from where the first led.
pub fn is_legal_in_parts()
    ensures { IsLegalInParts }
{}

/// After every history: all numbers of the state are the plan's, marks are truthful, no two jobs hold one instrument,
/// and precedence has no cycle.
pub fn after_every_history()
    ensures fits { AfterEvery Fits }
    ensures truthful { AfterEvery AreTruthful }
    ensures exclusive { AfterEvery IsExclusive }
    ensures acyclic { AfterEvery IsAcyclic }
{}

/// After every history each edge has its word, and so has how far each job is.
pub fn have_their_words()
    ensures { AfterEvery FitTheirWords }
{}

/// A retired job stays retired over every legal list of events.
pub fn stays_retired()
    ensures { StaysRetired }
{}

/// A drinking job with a command left, and a job that reaches, hold the instrument of that command.
pub fn holds_what_it_reaches()
    ensures { HoldsWhatItReaches }
{}

/// While a job reaches for an instrument, its log stays as it was until the job's own next event.
pub fn keeps_reached_log()
    ensures { KeepsReachedLog }
{}

/// No two jobs reach for one instrument.
pub fn has_one_reaching()
    ensures { HasOneReaching }
{}

/// A log has one entry for each Act done on its instrument.
pub fn has_one_entry_each()
    ensures { HasOneEntryEach }
{}

/// A job that is in no session is at no command.
pub fn rests_at_no_command()
    ensures { RestsAtNoCommand }
{}
