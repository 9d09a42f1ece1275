//! The rounds of a session, and of a meal.
ghost use Rattle.std.specs.Prelude.{◌≡◌};
ghost use Rattle.waiting.specs.OneRound.{noted, session_then, meal_then, begins_session, begins_meal, begun_session, begun_meal};

use legal_steps::{Dining, Drinking};

/// In which rounds a session became thirsty, drank, and was done or given up.
#[derive(Clone, Copy, PartialEq, Eq, Debug)]
pub struct Session {
    pub thirsty: u32,
    pub drinks: Option<u32>,
    pub done: Option<u32>,
    pub given_up: Option<u32>,
}

/// In which rounds a job became hungry, sat down to eat, and left.
#[derive(Clone, Copy, PartialEq, Eq, Debug)]
pub struct Meal {
    pub hungry: u32,
    pub sits: Option<u32>,
    pub leaves: Option<u32>,
}

/// The round that was noted first.
fn noted(before: Option<u32>, round: u32) -> Option<u32>
    ensures { result ≡ noted before round }
{
    match before {
        Some(first) => Some(first),
        None => Some(round),
    }
}

/// Whether a session begins between two phases.
pub(crate) fn begins_session(before: Drinking, after: Drinking) -> bool
    ensures { result ≡ begins_session before after }
{
    matches!((before, after), (Drinking::Tranquil, Drinking::Thirsty))
}

/// Whether a meal is first wanted between two phases.
pub(crate) fn begins_meal(before: Dining, after: Dining) -> bool
    ensures { result ≡ begins_meal before after }
{
    matches!((before, after), (Dining::Thinking, Dining::Hungry))
}

impl Session {
    /// A session that became thirsty in this round.
    pub fn begun(round: u32) -> Session
        ensures { result ≡ begun_session round }
    {
        Session {
            thirsty: round,
            drinks: None,
            done: None,
            given_up: None,
        }
    }

    /// The session after a round, in which its job went from one phase to another.
    pub fn after(self, before: Drinking, after: Drinking, round: u32) -> Session
        ensures { result ≡ session_then round before after self }
    {
        match (before, after) {
            (Drinking::Thirsty, Drinking::Drinking) => Session {
                drinks: noted(self.drinks, round),
                ..self
            },
            (Drinking::Drinking, Drinking::Tranquil) => Session {
                done: noted(self.done, round),
                ..self
            },
            (Drinking::Thirsty, Drinking::Tranquil) => Session {
                given_up: noted(self.given_up, round),
                ..self
            },
            _ => self,
        }
    }
}

impl Meal {
    /// A meal that is wanted from this round on.
    pub fn begun(round: u32) -> Meal
        ensures { result ≡ begun_meal round }
    {
        Meal {
            hungry: round,
            sits: None,
            leaves: None,
        }
    }

    /// The meal after a round, in which its job went from one phase to another.
    pub fn after(self, before: Dining, after: Dining, round: u32) -> Meal
        ensures { result ≡ meal_then round before after self }
    {
        match (before, after) {
            (Dining::Hungry, Dining::Eating) => Meal {
                sits: noted(self.sits, round),
                ..self
            },
            (Dining::Eating, Dining::Thinking) => Meal {
                leaves: noted(self.leaves, round),
                ..self
            },
            _ => self,
        }
    }
}
