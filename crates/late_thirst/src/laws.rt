//! What follows from the definitions alone.
ghost use Rattle.late_thirst.specs.Overtaking.{IsPassedAtMost};

/// Between its asking and its being let in, a job is passed by at most as many sessions as the line's number says: sessions that need one of its
/// instruments, and are let in by letting-ins in which the job might be let in too. Those that are let in together with it don't go before it.
pub fn is_passed_at_most()
    ensures { IsPassedAtMost }
{}
