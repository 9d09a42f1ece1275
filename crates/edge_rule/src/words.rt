//! Words as they are read and written.
ghost use Rattle.std.specs.Prelude.{◌≡◌, ◌+◌, ◌<◌, ◌≤◌, ◌^◌, length, slice_index_or, bit_xor, bit_and};
ghost use Rattle.lab_plan.specs.Limits.{most_sessions};
ghost use Rattle.lab_plan.specs.LabPlan.{edges, bottles};
ghost use Rattle.legal_steps.specs.declared.edge_state.EdgeState.{EdgeState};
ghost use Rattle.legal_steps.specs.State.{IsOwn, end_of, bottles_at};
ghost use Rattle.legal_steps.specs.Legal.{fork_mark_seen};
ghost use Rattle.legal_steps.specs.declared.phase.JobState.{JobState};
ghost use Rattle.edge_word.specs.Words.{word_of, IsOfBottles};
ghost use Rattle.edge_word.specs.Phases.{phase_word_of, FitsPhaseWord};
ghost use Rattle.one_history.specs.PhaseEvents.{phase_after as next_phase, clears as clears_marks};
ghost use Rattle.one_history.specs.Rule.{edge_place as place_of_edge, phase_place as place_of, word_count as count_of};

use edge_word::{EdgeWord, PhaseWord};
use lab_plan::{EdgeNo, JobNo, Plan};
use legal_steps::{Dining, Drinking, End, JobState};
use one_history::PhaseEvent;
use std::alloc::Allocator;

pub(crate) fn number(edge: EdgeNo) -> usize
    ensures { (result ≡ edge) × (result < 65536) }
{
    edge.0 as usize
}

pub(crate) fn job_number(job: JobNo) -> usize
    ensures { (result ≡ job) × (result < 256) }
{
    job.0 as usize
}

/// The edge that a word of the table spells.
pub(crate) fn unpacked<A: Allocator>(plan: &Plan<A>, edge: EdgeNo, word: u64) -> EdgeWord
    requires edge { edge < length (edges plan.now) }
    requires spelled { (x : EdgeState) × (word ≡ word_of x) × IsOfBottles (length (bottles plan.now edge)) x }
    ensures word { word_of result ≡ word }
    ensures fits { IsOfBottles (length (bottles plan.now edge)) result }
{
    // An edge has 28 bottles at most, so that its words are among those that can be spelled.
    let _ = plan.bottles(edge);
    EdgeWord::spelled(word)
}

/// What a look sets: the mark of the fork, and those of the bottles.
pub(crate) fn marks_of<A: Allocator>(
    plan: &Plan<A>,
    job: JobNo,
    edge: EdgeNo,
    dining: Dining,
    seen: EdgeWord,
) -> (bool, u32)
    requires own { IsOwn plan.now job edge }
    ensures fork { result.0 ≡ fork_mark_seen dining (end_of plan.now job edge) seen }
    ensures bottles { result.1 ≡ bottles_at plan.now edge (end_of plan.now job edge) seen }
{
    let here = End::of(plan, job, edge);
    let state = seen.unpacked();
    (
        state.fork_mark(here, dining),
        state.bottles_at(plan, edge, here),
    )
}

/// Words that are used stand so far apart: each has a cache line of its own, and the one that many processors fetch with it, so that
/// threads that work on neighbouring words don't slow each other down.
const STRIDE: usize = 16;

/// A place that every table has: that of the first edge or phase, or the spare one. Loads that are there for the rule alone
/// are loads of it.
pub(crate) const SOME_WORD: usize = 0;

/// Where the word of an edge is.
pub(crate) fn edge_place(edge: EdgeNo) -> usize
    ensures { (result ≡ place_of_edge edge) × (result < 1048576) }
{
    STRIDE * number(edge)
}

/// Where the word of a job's phase is.
pub(crate) fn phase_place<A: Allocator>(plan: &Plan<A>, job: JobNo) -> usize
    ensures { result ≡ place_of plan.now job }
{
    STRIDE * (plan.edges() as usize + job.0 as usize)
}

/// How many places a table has.
pub(crate) fn word_count<A: Allocator>(plan: &Plan<A>) -> usize
    ensures { result ≡ count_of plan.now }
{
    STRIDE * (plan.edges() as usize + plan.jobs() + 1)
}

pub(crate) fn packed_phase(phase: JobState) -> u64
    requires { phase.session < 2 ^ 24 }
    ensures { result ≡ phase_word_of phase }
{
    PhaseWord::new(phase).pack()
}

/// The phase after an event.
pub(crate) fn phase_after(what: PhaseEvent, phase: JobState) -> JobState
    requires { phase.session ≤ most_sessions }
    ensures phase { result ≡ next_phase what phase }
    ensures few { result.session ≤ most_sessions + 1 }
{
    match what {
        PhaseEvent::Thirst => phase.in_next_session(),
        PhaseEvent::Hunger => phase.with_dining(Dining::Hungry),
        PhaseEvent::Sit => phase.with_dining(Dining::Eating),
        PhaseEvent::Leave => phase.with_dining(Dining::Thinking),
        PhaseEvent::Drink => phase.with_drinking(Drinking::Drinking),
        PhaseEvent::Retire => phase.with_drinking(Drinking::Retired),
        PhaseEvent::Quit | PhaseEvent::Withdraw => phase.out_of_session(),
    }
}

/// Whether a meal starts or ends, and so clears the fork marks.
pub(crate) fn clears(what: PhaseEvent) -> bool
    ensures { result ≡ clears_marks what }
{
    matches!(what, PhaseEvent::Sit | PhaseEvent::Leave)
}

/// The phase that a word of the table spells.
pub(crate) fn unpacked_phase(word: u64) -> PhaseWord
    requires { (x : JobState) × (word ≡ phase_word_of x) × FitsPhaseWord x }
    ensures word { phase_word_of result ≡ word }
    ensures fits { FitsPhaseWord result }
{
    PhaseWord::spelled(word)
}
