//! What follows of settles from their contract.
ghost use Rattle.live_lab.specs.Waited.{LettingsInAreWaited, SettlesAreWaited};
ghost use Rattle.live_lab.specs.Staying.{HoldersStay};
ghost use Rattle.live_lab.specs.Before.{FewAreLetInBefore};
ghost use Rattle.live_lab.specs.Keepers.{EachLackHasAKeeper};
ghost use Rattle.live_lab.specs.Retiring.{WhoOwesAMealRetiresLater};

/// All that a settle does to a job that it leaves outside are letting-ins, so it is passed by as `late_thirst::laws::is_passed_at_most` says: between its
/// asking and its being let in, by at most as many sessions as the line's number says.
pub fn settles_are_waited()
    ensures lettings_in { LettingsInAreWaited }
    ensures settles { SettlesAreWaited }
{}

/// While each settle names a job that waits outside, the sessions that need one of its instruments and are let in from its asking on are at most as
/// many as the line's number says.
pub fn few_are_let_in_before()
    ensures { FewAreLetInBefore }
{}

/// Who holds goes on to hold, in the same session, over every call that doesn't end that session: only an end of its own does.
pub fn holders_stay()
    ensures { HoldersStay }
{}

/// Where a settle leaves the lab, each instrument that a job in line lacks has at least one keeper: a job that keeps a bottle of it that the job lacks.
pub fn each_lack_has_a_keeper()
    ensures { EachLackHasAKeeper }
{}

/// A job that is to retire, and may not yet though a try is allowed, owes a meal, and nothing of its sessions has changed; one that owes none retires.
pub fn who_owes_a_meal_retires_later()
    ensures { WhoOwesAMealRetiresLater }
{}
