//! What holds of a desk over many turns.
ghost use Rattle.session_layer.specs.Grown.{OneTurn, GlancesAlone, HearingAlone, TurnsGoOn, LosesInBetween};

/// What `turn` does is one turn, whose groups stand unbroken in what the desk saw meanwhile.
pub fn one_turn()
    ensures { OneTurn }
{}

/// Glances are no turn, and hearing of other desks is none.
pub fn no_turn()
    ensures glances { GlancesAlone }
    ensures hearing { HearingAlone }
{}

/// Turns after turns are as many turns.
pub fn turns_go_on()
    ensures { TurnsGoOn }
{}

/// A lost exchange has its place between what the job did before it and what it did after it: there its edge is another than its look saw.
pub fn loses_in_between()
    ensures { LosesInBetween }
{}
