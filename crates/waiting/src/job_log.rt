//! What is noted of a job, round by round.
ghost use Rattle.std.specs.Prelude.{◌≡◌, OnOk};
ghost use Rattle.waiting.specs.Noting.{fresh_log, log_then, sessions_then, meals_then};

use crate::session::{Meal, Session, begins_meal, begins_session};
use legal_steps::{Dining, Drinking, JobState};
use std::alloc::{AllocError, Allocator, Global};
use std::marker::Model;

/// The rounds of a job's sessions and meals, in their order, and how far it was after the last round.
#[derive(Drop)]
pub struct JobLog<A: Allocator = Global> {
    phase: JobState,
    sessions: Vec<Session, A>,
    meals: Vec<Meal, A>,
}

impl<A: Allocator> Model for JobLog<A> {
    ghost use Rattle.waiting.specs.Noting.{LogView};

    ghost Value = { LogView };

    ghost view = { λ l. record { phase = l.phase; sessions = l.sessions.items; meals = l.meals.items } };
}

/// Notes what became of the sessions in a round.
fn note_sessions<A: Allocator>(
    sessions: &mut Vec<Session, A>,
    round: u32,
    before: Drinking,
    after: Drinking,
) -> Result<(), AllocError>
    ensures { OnOk result (sessions.new.items ≡ sessions_then round before after sessions.old.items) }
{
    if begins_session(before, after) {
        sessions.push(Session::begun(round))?;
        return Ok(());
    }
    let count = sessions.len();
    if 0 < count {
        sessions[count - 1] = sessions[count - 1].after(before, after, round);
    }
    Ok(())
}

/// Notes what became of the meals in a round.
fn note_meals<A: Allocator>(
    meals: &mut Vec<Meal, A>,
    round: u32,
    before: Dining,
    after: Dining,
) -> Result<(), AllocError>
    ensures { OnOk result (meals.new.items ≡ meals_then round before after meals.old.items) }
{
    if begins_meal(before, after) {
        meals.push(Meal::begun(round))?;
        return Ok(());
    }
    let count = meals.len();
    if 0 < count {
        meals[count - 1] = meals[count - 1].after(before, after, round);
    }
    Ok(())
}

impl<A: Allocator> JobLog<A> {
    /// A job before the first round.
    pub(crate) fn new(alloc: A) -> JobLog<A>
    where
        A: Copy,
        ensures { result ≡ fresh_log }
    {
        JobLog {
            phase: JobState::IDLE,
            sessions: Vec::new(alloc),
            meals: Vec::new(alloc),
        }
    }

    /// The sessions that the job began.
    pub fn sessions(&self) -> &[Session]
        ensures { result.now ≡ self.now.sessions }
    {
        &self.sessions
    }

    /// The meals that it wanted.
    pub fn meals(&self) -> &[Meal]
        ensures { result.now ≡ self.now.meals }
    {
        &self.meals
    }

    /// Notes how far the job is after a round.
    pub(crate) fn note(&mut self, round: u32, phase: JobState) -> Result<(), AllocError>
        ensures { OnOk result (self.new ≡ log_then round phase self.old) }
    {
        let before = self.phase;
        note_sessions(&mut self.sessions, round, before.drinking, phase.drinking)?;
        note_meals(&mut self.meals, round, before.dining, phase.dining)?;
        self.phase = phase;
        Ok(())
    }
}
