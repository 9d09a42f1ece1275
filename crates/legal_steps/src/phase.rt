//! How far a job is: what it dines, what it drinks, and where in its sessions it stands.
ghost use Rattle.std.specs.Prelude.{◌≡◌, ◌≢◌, ◌+◌, ◌<◌, ◌≤◌, ◌↔◌, IsSome, IsTrue, length};
ghost use Rattle.std.specs.Option.{ForSome};
ghost use Rattle.lab_plan.specs.LabPlan.{commands, patience, sessions};

use lab_plan::{JobNo, Plan};
use std::alloc::Allocator;

/// What a job does at the table of forks (Chandy and Misra 1984).
#[derive(Clone, Copy, PartialEq, Eq, Debug)]
pub enum Dining {
    /// Wants no meal.
    Thinking,
    /// Waits for its forks.
    Hungry,
    /// Has its meal.
    Eating,
}

/// What a job does with the bottles of its session (Chandy and Misra 1984).
#[derive(Clone, Copy, PartialEq, Eq, Debug)]
pub enum Drinking {
    /// In no session.
    Tranquil,
    /// In a session, and waits for its bottles.
    Thirsty,
    /// In a session, and holds all its instruments.
    Drinking,
    /// The same, with the log of its next command's instrument in hand.
    Reaching,
    /// Has no session left.
    Retired,
}

/// How far a job is.
#[derive(Clone, Copy, PartialEq, Eq, Debug)]
pub struct JobState {
    /// What it does at the table of forks.
    pub dining: Dining,
    /// What it does with the bottles of its session.
    pub drinking: Drinking,
    /// How many sessions it has begun: 0 to 1000. While it is in one, that one's number.
    pub session: u32,
    /// How many commands of its session it has done; 0 if it is tranquil or retired.
    pub position: u32,
}

impl JobState {
    ghost use Rattle.legal_steps.specs.State.{IsDrinking, IsInSession};

    /// A job before its first event.
    pub const IDLE: JobState = JobState {
        dining: Dining::Thinking,
        drinking: Drinking::Tranquil,
        session: 0,
        position: 0,
    };

    /// Whether the job is in a session: it is thirsty, drinks or reaches.
    pub fn is_in_session(self) -> bool
        ensures { IsTrue result ↔ IsInSession self.drinking }
    {
        self.drinking == Drinking::Thirsty || self.is_drinking()
    }

    /// Whether the job holds the instruments of its session: it drinks or reaches.
    pub fn is_drinking(self) -> bool
        ensures { IsTrue result ↔ IsDrinking self }
    {
        self.drinking == Drinking::Drinking || self.drinking == Drinking::Reaching
    }
}

// What the guards ask of the job's own phase.
impl JobState {
    ghost use Rattle.legal_steps.specs.declared.phase.Dining.TheVariants.{Eating, Thinking};
    ghost use Rattle.legal_steps.specs.declared.phase.Drinking.TheVariants.{Drinking as Drinks, Thirsty, Tranquil};
    ghost use Rattle.legal_steps.specs.Fitting.{IsPhaseOf};
    ghost use Rattle.legal_steps.specs.Legal.{IsJob};

    /// Whether the next session may begin: the job is tranquil, doesn't eat, and has a session left.
    pub fn may_thirst<A: Allocator>(self, plan: &Plan<A>, job: JobNo) -> bool
        requires { IsJob plan.now job }
        ensures { IsTrue result ↔ ((self.drinking ≡ Tranquil) × (self.dining ≢ Eating) × (self.session < length (sessions plan.now job))) }
    {
        self.drinking == Drinking::Tranquil
            && self.dining != Dining::Eating
            && self.session < plan.sessions(job)
    }

    /// Whether the job may become hungry: it thinks, and is thirsty.
    pub fn may_hunger(self) -> bool
        ensures { IsTrue result ↔ ((self.dining ≡ Thinking) × (self.drinking ≡ Thirsty)) }
    {
        self.dining == Dining::Thinking && self.drinking == Drinking::Thirsty
    }

    /// Whether the job may end its meal, if its forks are dirty: it eats, and isn't thirsty.
    pub fn may_leave(self) -> bool
        ensures { IsTrue result ↔ ((self.dining ≡ Eating) × (self.drinking ≢ Thirsty)) }
    {
        self.dining == Dining::Eating && self.drinking != Drinking::Thirsty
    }

    /// Whether the next command may be done: the job drinks, and has a command left.
    pub fn may_reach<A: Allocator>(self, plan: &Plan<A>, job: JobNo) -> bool
        requires is_job { IsJob plan.now job }
        requires fits { IsPhaseOf plan.now job self }
        ensures { IsTrue result ↔ ((self.drinking ≡ Drinks) × (self.position < length (commands plan.now job self.session))) }
    {
        self.drinking == Drinking::Drinking
            && (self.position as usize) < plan.commands(job, self.session).len()
    }

    /// Whether the session may end: the job drinks, and has no command left in it.
    pub fn may_quit<A: Allocator>(self, plan: &Plan<A>, job: JobNo) -> bool
        requires is_job { IsJob plan.now job }
        requires fits { IsPhaseOf plan.now job self }
        ensures { IsTrue result ↔ ((self.drinking ≡ Drinks) × (length (commands plan.now job self.session) ≤ self.position)) }
    {
        self.drinking == Drinking::Drinking
            && plan.commands(job, self.session).len() <= self.position as usize
    }

    /// Whether the job may retire: it thinks, is tranquil, and has no session left.
    pub fn may_retire<A: Allocator>(self, plan: &Plan<A>, job: JobNo) -> bool
        requires { IsJob plan.now job }
        ensures { IsTrue result ↔ ((self.dining ≡ Thinking) × (self.drinking ≡ Tranquil) × (length (sessions plan.now job) ≤ self.session)) }
    {
        self.dining == Dining::Thinking
            && self.drinking == Drinking::Tranquil
            && plan.sessions(job) <= self.session
    }

    /// Whether the session may be given up: the job is thirsty, and the session has a patience.
    pub fn may_withdraw<A: Allocator>(self, plan: &Plan<A>, job: JobNo) -> bool
        requires is_job { IsJob plan.now job }
        requires fits { IsPhaseOf plan.now job self }
        ensures { IsTrue result ↔ ((self.drinking ≡ Thirsty) × IsSome (patience plan.now job self.session)) }
    {
        self.drinking == Drinking::Thirsty && plan.patience(job, self.session).is_some()
    }

    /// The same, and the patience is used up by this count of turns.
    pub fn gives_up<A: Allocator>(self, plan: &Plan<A>, job: JobNo, waited: u32) -> bool
        requires is_job { IsJob plan.now job }
        requires fits { IsPhaseOf plan.now job self }
        ensures { IsTrue result ↔ ((self.drinking ≡ Thirsty) × IsSome (patience plan.now job self.session)
            × ForSome (patience plan.now job self.session) (λ n. n ≤ waited)) }
    {
        if self.drinking != Drinking::Thirsty {
            return false;
        }
        match plan.patience(job, self.session) {
            Some(turns) => turns <= waited,
            None => false,
        }
    }
}

// What the events make of the job's own phase.
impl JobState {
    ghost use Rattle.legal_steps.specs.declared.phase.Drinking.TheVariants.{Thirsty, Tranquil};

    /// The same, but that the job dines so.
    pub fn with_dining(self, dining: Dining) -> JobState
        ensures { result ≡ record self { dining = dining } }
    {
        JobState { dining, ..self }
    }

    /// The same, but that the job drinks so.
    pub fn with_drinking(self, drinking: Drinking) -> JobState
        ensures { result ≡ record self { drinking = drinking } }
    {
        JobState { drinking, ..self }
    }

    /// Thirsty, in the next session, at its first command.
    pub fn in_next_session(self) -> JobState
        requires { self.session ≤ 1000 }
        ensures { result ≡ record self { drinking = Thirsty; session = self.session + 1; position = 0 } }
    {
        JobState {
            drinking: Drinking::Thirsty,
            session: self.session + 1,
            position: 0,
            ..self
        }
    }

    /// Tranquil, once the session has ended or was given up.
    pub fn out_of_session(self) -> JobState
        ensures { result ≡ record self { drinking = Tranquil; position = 0 } }
    {
        JobState {
            drinking: Drinking::Tranquil,
            position: 0,
            ..self
        }
    }
}
