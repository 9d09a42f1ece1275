//! The causes for which an event isn't legal.
use lab_plan::EdgeNo;

/// Why an event isn't legal in a state: the part of its guard that fails. "Here" is the acting job's
/// end of the edge, "there" the other. A bottle is named by its number, from 0, on the event's edge or on the edge
/// that stands beside it.
#[derive(Clone, Copy, PartialEq, Eq, Debug)]
pub enum Cause {
    /// The plan has no such job.
    NotJob,
    /// It isn't an edge of the job.
    NotOwn,
    /// What is there isn't what the look or the glance is said to see.
    SeesElse,
    /// The plan has no such job as the one that is glanced at.
    OtherNotJob,
    /// The job glances at itself.
    Itself,
    /// The job isn't thinking: it is hungry or eats.
    NotThinking,
    /// The job isn't hungry.
    NotHungry,
    /// The job doesn't eat.
    NotEating,
    /// The job eats.
    Eats,
    /// The job is in a session, or retired.
    NotTranquil,
    /// The job isn't thirsty.
    NotThirsty,
    /// The job is thirsty.
    Thirsts,
    /// The job doesn't drink, or it reaches.
    NotDrinking,
    /// The job doesn't reach.
    NotReaching,
    /// The fork is here.
    ForkHere,
    /// The fork is there.
    ForkThere,
    /// The fork is clean.
    ForkClean,
    /// The fork is dirty.
    ForkDirty,
    /// The fork's request token is there.
    TokenThere,
    /// No mark for the fork of this edge, and the fork is there.
    UnmarkedAway(EdgeNo),
    /// No mark for the fork of this edge: it is here, but dirty, and its token is here too.
    UnmarkedClaimed(EdgeNo),
    /// No mark for the fork of this edge: it is here, but clean in a meal.
    UnmarkedClean(EdgeNo),
    /// No mark for the fork of this edge, though a look would set it.
    UnmarkedUnseen(EdgeNo),
    /// The set has no bottle.
    NoBottle,
    /// The set has a bottle that the edge doesn't have.
    NotOfEdge,
    /// The job doesn't need this bottle.
    NotNeeded(u32),
    /// This bottle is here.
    BottleHere(u32),
    /// This bottle is there.
    BottleThere(u32),
    /// The request token of this bottle is there.
    BottleTokenThere(u32),
    /// The job drinks and needs this bottle.
    KeptInSession(u32),
    /// The job needs this bottle and has the fork.
    KeptWithFork(u32),
    /// No mark for a needed bottle of this edge, and the bottle is there.
    MissingAway(EdgeNo, u32),
    /// No mark for a needed bottle of this edge, though a look would set it.
    MissingUnseen(EdgeNo, u32),
    /// The job has no session left.
    NoSessionLeft,
    /// The job has a session left.
    SessionLeft,
    /// The session has no command left.
    NoCommandLeft,
    /// The session has a command left.
    CommandLeft,
    /// The session has no patience.
    NoPatience,
}
