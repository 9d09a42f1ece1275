//! One job's seat at the bench.
use crate::clock::Clock;
use atomic_table::Seat;
use edge_word::EdgeWord;
use instrument_log::InstrumentLog;
use lab_plan::JobNo;
use legal_steps::{Counts, JobState};
use one_history::board::View;
use std::alloc::{Allocator, Global};
use std::marker::Model;

/// What keeps the next desk off this one's cache lines, and off those that a processor fetches with them: desks stand side by side, and
/// every turn writes to the desk of its job, perhaps on another thread. Never read.
pub(crate) type Apart = [u64; 16];

pub(crate) const APART: Apart = [0; 16];

/// One job's seat, with what the job knows. Lists are by edge number of the plan; at edges that aren't the job's own they stay
/// as at the opening.
#[derive(Drop)]
pub struct Desk<A: Allocator = Global> {
    /// The right to act as the job, and the history that it has seen.
    pub(crate) seat: Seat<InstrumentLog<A>, View>,
    pub(crate) job: JobNo,
    /// What the word of the job's phase says: it alone stores it.
    pub(crate) phase: JobState,
    /// The marks of forks and bottles: what the last look set, or moves and phase acts after it.
    pub(crate) fork_marks: Vec<bool, A>,
    pub(crate) bottle_marks: Vec<u32, A>,
    /// The word last seen, or written by the job since.
    pub(crate) seen: Vec<EdgeWord, A>,
    /// That same word if nothing was due there by it and the phase, and the marks are those that a look at it sets; else `NO_WORD`.
    pub(crate) calm: Vec<u64, A>,
    /// If it is set, no phase act is due but giving the session up.
    pub(crate) settled: bool,
    /// The bottles that the job needs now: those of its session, and none between sessions.
    pub(crate) needed: Vec<u32, A>,
    /// The turns that were noted, and how many of them the session waited.
    pub(crate) clock: Clock,
    /// What the job has done so far: the meals, and the sessions that it ended or gave up.
    pub(crate) counts: Counts,
    pub(crate) apart: Apart,
}

impl<A: Allocator> Model for Desk<A> {
    ghost use Rattle.edge_rule.specs.DeskView.{DeskView};

    ghost Value = { DeskView };

    ghost use Rattle.edge_rule.specs.DeskInside.{view_of, IsDesk};

    ghost view = { view_of };

    ghost invariant = { IsDesk };
}
