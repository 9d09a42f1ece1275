//! What holds of the desks that workers drove.
ghost use Rattle.workers.specs.Closed.{TurnsInHistory};

/// In the history that closing the bench gives, each job's events since are whole turns, and the groups of each turn stand unbroken.
pub fn turns_in_history()
    ensures { TurnsInHistory }
{}
