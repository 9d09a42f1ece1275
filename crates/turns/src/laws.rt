//! What holds of what is due, and of turns.
ghost use Rattle.turns.specs.Laws.{DueIsLegal, OneGroupIsDue, NothingDueIsCalm, CalmHasNothingDue, StaysCalm, OneActIsDue, NothingDoneIsIdle, IdleTurnIsCalm};

/// The moves that are due on an edge are legal, one after another.
pub fn due_is_legal()
    ensures { DueIsLegal }
{}

/// The moves that are due are one group.
pub fn one_group_is_due()
    ensures { OneGroupIsDue }
{}

/// If no move is due on an edge, none is legal there.
pub fn nothing_due_is_calm()
    ensures { NothingDueIsCalm }
{}

/// If no move is legal on an edge, none is due: what a note of calm rests on.
pub fn calm_has_nothing_due()
    ensures { CalmHasNothingDue }
{}

/// Whether an edge is calm depends on the job's own phase and on that edge alone.
pub fn stays_calm()
    ensures { StaysCalm }
{}

/// The phase act that is due is one.
pub fn one_act_is_due()
    ensures { OneActIsDue }
{}

/// A turn in which nothing was done, and no exchange found another word, is an idle turn.
pub fn nothing_done_is_idle()
    ensures { NothingDoneIsIdle }
{}

/// An idle turn is looks alone, and after it no move on any edge of the job is legal by what was seen.
pub fn idle_turn_is_calm()
    ensures { IdleTurnIsCalm }
{}
