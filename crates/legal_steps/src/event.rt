//! Atomic steps, as events and as they are written in a list of steps.
use crate::edge_state::EdgeState;
use crate::phase::JobState;
use lab_plan::{EdgeNo, JobNo};

/// One atomic step, with what it saw. The first number is that of the job that acts; a set of bottles is a number
/// in which bit `k` stands for bottle `k` of the edge.
#[derive(Clone, Copy, PartialEq, Eq, Debug)]
pub enum Event {
    /// The job reads an edge of its own, and sets or clears its marks for it.
    Look(JobNo, EdgeNo, EdgeState),
    /// Sends the request token of a fork to the other end.
    AskFork(JobNo, EdgeNo),
    /// Sends a fork, cleaned, to the other end.
    GiveFork(JobNo, EdgeNo),
    /// Makes a clean fork dirty during a meal.
    Soil(JobNo, EdgeNo),
    /// Sends the request tokens of a set of bottles to the other end.
    AskBottles(JobNo, EdgeNo, u32),
    /// Sends a set of bottles to the other end.
    GiveBottles(JobNo, EdgeNo, u32),
    /// Begins the next session.
    Thirst(JobNo),
    /// Begins to want a meal.
    Hunger(JobNo),
    /// Starts a meal.
    Sit(JobNo),
    /// Ends a meal.
    Leave(JobNo),
    /// Takes all instruments of its session at once.
    Drink(JobNo),
    /// Takes the log of the next command's instrument out.
    Reach(JobNo),
    /// Does the command: the log has one more entry.
    Act(JobNo),
    /// Ends the session.
    Quit(JobNo),
    /// Has no session left.
    Retire(JobNo),
    /// The first job reads how far the second is.
    Glance(JobNo, JobNo, JobState),
    /// Gives up a session that has a patience.
    Withdraw(JobNo),
}

/// One step of a list of steps: an event, of which a look or a glance doesn't say what it sees.
#[derive(Clone, Copy, PartialEq, Eq, Debug)]
pub enum Step {
    Look(JobNo, EdgeNo),
    AskFork(JobNo, EdgeNo),
    GiveFork(JobNo, EdgeNo),
    Soil(JobNo, EdgeNo),
    AskBottles(JobNo, EdgeNo, u32),
    GiveBottles(JobNo, EdgeNo, u32),
    Thirst(JobNo),
    Hunger(JobNo),
    Sit(JobNo),
    Leave(JobNo),
    Drink(JobNo),
    Reach(JobNo),
    Act(JobNo),
    Quit(JobNo),
    Retire(JobNo),
    Glance(JobNo, JobNo),
    Withdraw(JobNo),
}

/// A step, and the number of the line where it stands, from 1.
#[derive(Clone, Copy, PartialEq, Eq, Debug)]
pub struct StepLine {
    pub line: usize,
    pub step: Step,
}

/// The event isn't legal in this state.
#[derive(Clone, Copy, PartialEq, Eq, Debug)]
pub struct NotLegal;
