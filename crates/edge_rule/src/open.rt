//! Opening a bench.
ghost use Rattle.std.specs.Prelude.{◌≡◌, ◌<◌, ◌+◌, ◌*◌, ◌∷◌, [], length, replicate, IfOk};
ghost use Rattle.lab_plan.specs.LabPlan.{edges};
ghost use Rattle.legal_steps.specs.Opening.{the_opening};
ghost use Rattle.turns.specs.History.{IsHistory};
ghost use Rattle.one_history.specs.Rule.{Spelled, first_view, word_count};
ghost use Rattle.one_history.specs.Seating.{undealt, nothing};
ghost use Rattle.edge_rule.specs.Openings.{opening_edges};
ghost use Rattle.edge_rule.specs.Standing.{IsKnownAfter};
ghost use Rattle.edge_rule.specs.DeskView.{desk_after, fresh_desks};

use crate::bench::Bench;
use crate::calm::NO_WORD;
use crate::clock::Clock;
use crate::desk::{APART, Desk};
use crate::job_knowledge::JobKnowledge;
use crate::needed::set_needed;
use crate::refusals::OpenError;
use crate::words::{edge_place, word_count};
use atomic_table::{Seat, Table};
use edge_word::EdgeWord;
use instrument_log::InstrumentLog;
use lab_plan::{EdgeNo, JobNo, Plan};
use legal_steps::{JobState, NO_COUNTS, Past};
use one_history::Start;
use one_history::board::{Board, Deals, View};
use plan_logs::empty_logs;
use std::alloc::{AllocError, Allocator};
use std::snapshot::Snapshot;

/// The words of the initial state.
fn fresh_words<A: Allocator + Copy>(alloc: A, plan: &Plan<A>) -> Result<Vec<u64, A>, AllocError>
    ensures { IfOk result (λ v. Spelled plan.now (the_opening plan.now) v.items) }
{
    let mut words = Vec::from_elem(alloc, 0u64, word_count(plan))?;
    for edge in 0..plan.edges() {
        let word = EdgeWord::opening(plan.bottles(EdgeNo(edge))).pack();
        words[edge_place(EdgeNo(edge))] = word;
    }
    Ok(words)
}

/// The edges of the initial state, as a desk sees them.
fn fresh_edges<A: Allocator + Copy>(
    alloc: A,
    plan: &Plan<A>,
) -> Result<Vec<EdgeWord, A>, AllocError>
    ensures { IfOk result (λ v. v.items ≡ opening_edges plan.now (length (edges plan.now))) }
{
    let mut seen = Vec::with_capacity(alloc, plan.edges() as usize)?;
    for edge in 0..plan.edges() {
        let word = EdgeWord::opening(plan.bottles(EdgeNo(edge)));
        seen.push(word)?;
    }
    Ok(seen)
}

/// What a job knows before its first event.
fn fresh_knowledge<A: Allocator + Copy>(
    alloc: A,
    plan: &Plan<A>,
    job: usize,
) -> Result<JobKnowledge<A>, AllocError>
    requires { job < length plan.now.jobs }
    ensures { IfOk result (λ k. IsKnownAfter plan.now [] job k) }
{
    let count = plan.edges() as usize;
    let fork_marks = Vec::from_elem(alloc, false, count)?;
    let bottle_marks = Vec::from_elem(alloc, 0u32, count)?;
    let seen = fresh_edges(alloc, plan)?;
    Ok(JobKnowledge {
        phase: JobState::IDLE,
        fork_marks,
        bottle_marks,
        seen,
        counts: NO_COUNTS,
    })
}

/// The desk of the next job, by a seat that is cut off: the job knows this.
pub(crate) fn next_desk<A: Allocator + Copy>(
    alloc: A,
    table: &Board<A>,
    keeper: &mut Seat<InstrumentLog<A>, View>,
    plan: &Plan<A>,
    job: usize,
    knowledge: JobKnowledge<A>,
) -> Result<Desk<A>, AllocError>
    requires table { (table.now.shared.key.plan.value ≡ plan.now) × (keeper.old.table_id ≡ table.now.shared.table_id)
        × (table.now.shared.table_id.words ≡ word_count plan.now) }
    requires job { job < length plan.now.jobs }
    requires past { IsHistory plan.now table.now.shared.key.past.events }
    requires left { keeper.old.me ≡ (undealt plan.now table.now.shared.key.past.events job, []) }
    requires known { IsKnownAfter plan.now table.now.shared.key.past.events job knowledge }
    ensures keeper { IfOk result (λ d. (keeper.new.table_id ≡ keeper.old.table_id)
        × (keeper.new.me ≡ (undealt plan.now table.now.shared.key.past.events (job + 1), []))) }
    ensures desk { IfOk result (λ d. d ≡ desk_after keeper.old.table_id plan.now table.now.shared.key.past.events job) }
{
    let jobs = plan.jobs();
    let count = plan.edges() as usize;
    let calm = Vec::from_elem(alloc, NO_WORD, count)?;
    let mut needed = Vec::from_elem(alloc, 0u32, count)?;
    let number = JobNo(job as u8);
    set_needed(plan, number, knowledge.phase, &mut needed);
    let JobKnowledge {
        phase,
        fork_marks,
        bottle_marks,
        seen,
        counts,
    } = knowledge;
    let seat = table.shared.split_seat::<Deals>(keeper);
    Ok(Desk {
        seat,
        job: number,
        phase,
        fork_marks,
        bottle_marks,
        seen,
        calm,
        settled: false,
        needed,
        clock: Clock {
            turns: 0,
            waited: 0,
            session: 0,
        },
        counts,
        apart: APART,
    })
}

fn deal<A: Allocator + Copy>(
    alloc: A,
    table: &Board<A>,
    keeper: &mut Seat<InstrumentLog<A>, View>,
    plan: &Plan<A>,
) -> Result<Vec<Desk<A>, A>, AllocError>
    requires table { (table.now.shared.key.plan.value ≡ plan.now) × (keeper.old.table_id ≡ table.now.shared.table_id)
        × (table.now.shared.table_id.words ≡ word_count plan.now) }
    requires past { table.now.shared.key.past.events ≡ [] }
    requires left { keeper.old.me ≡ (first_view plan.now [], []) }
    ensures keeper { IfOk result (λ v. (keeper.new.table_id ≡ keeper.old.table_id) × (keeper.new.me ≡ (nothing, []))) }
    ensures desks { IfOk result (λ v. v.items ≡ fresh_desks keeper.old.table_id plan.now (length plan.now.jobs)) }
{
    let mut desks = Vec::with_capacity(alloc, plan.jobs())?;
    for job in 0..plan.jobs() {
        let knowledge = fresh_knowledge(alloc, plan, job)?;
        let desk = next_desk(alloc, table, keeper, plan, job, knowledge)?;
        desks.push(desk)?;
    }
    Ok(desks)
}

/// A bench in the initial state, with its desks.
fn opened<'p, A: Allocator + Copy>(
    alloc: A,
    plan: &'p Plan<A>,
) -> Result<(Bench<'p, A>, Vec<Desk<A>, A>), AllocError>
    ensures { IfOk result (λ r. (r.0.plan ≡ plan.now) × (r.1.items ≡ fresh_desks r.0.table plan.now (length plan.now.jobs))) }
{
    // A call for its clause alone: that the plan is well formed, which the rule of the table asks for.
    let _ = plan.jobs();
    let words = fresh_words(alloc, plan)?;
    let logs = empty_logs(alloc, plan)?;
    let start = Start {
        plan: Snapshot::of(plan),
        past: Past::none(),
    };
    let made = Table::new(alloc, words.as_slice(), logs, &start);
    let Ok((table, mut keeper)) = made else {
        return Err(AllocError);
    };
    let desks = deal(alloc, &table, &mut keeper, plan)?;
    let bench = Bench { table, plan };
    Ok((bench, desks))
}

impl<'p, A: Allocator + Copy> Bench<'p, A> {
    /// A bench for the plan, in the initial state, and a desk for each job, in ascending order. The room of all logs is
    /// reserved here.
    pub fn open(alloc: A, plan: &'p Plan<A>) -> Result<(Bench<'p, A>, Vec<Desk<A>, A>), OpenError>
        ensures { IfOk result (λ r. (r.0.plan ≡ plan.now) × (r.1.items ≡ fresh_desks r.0.table plan.now (length plan.now.jobs))) }
    {
        match opened(alloc, plan) {
            Ok(made) => Ok(made),
            Err(_) => Err(OpenError::NoMemory),
        }
    }
}
