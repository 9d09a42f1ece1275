//! A plan that gets longer under a world.
ghost use Rattle.settling.specs.Longer.{HasStillNothingToDo, StaysMarked};

/// Who has nothing to do of itself has nothing to do of itself by a longer plan either: its moves, its meals and its drinking ask for no session
/// but the one that it is in.
pub fn has_still_nothing_to_do()
    ensures { HasStillNothingToDo }
{}

/// So the notes of who is due, and where nothing is to be done, are true of the longer plan as they are.
pub fn stays_marked()
    ensures { StaysMarked }
{}
