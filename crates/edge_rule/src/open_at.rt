//! Opening a bench that stands where others left it.
ghost use Rattle.std.specs.Prelude.{◌≡◌, ℕ, ◌<◌, ◌^◌, [], length, slice_get, Some, IfOk};
ghost use Rattle.lab_plan.specs.LabPlan.{edges};
ghost use Rattle.legal_steps.specs.declared.event.Event.{Event};
ghost use Rattle.turns.specs.History.{IsHistory, state_after};
ghost use Rattle.one_history.specs.Rule.{Spelled, first_view, word_count};
ghost use Rattle.edge_rule.specs.Standing.{AreEdgeWords, AreWordsOf, IsKnownAfter, AllKnownAfter, IsSameKnowledge, StandsAfter};
ghost use Rattle.edge_rule.specs.DeskView.{desks_after};

use crate::bench::Bench;
use crate::desk::Desk;
use crate::job_knowledge::JobKnowledge;
use crate::open::next_desk;
use crate::refusals::OpenError;
use crate::words::{edge_place, packed_phase, phase_place, word_count};
use atomic_table::{Seat, Table};
use edge_word::EdgeWord;
use instrument_log::InstrumentLog;
use lab_plan::{EdgeNo, JobNo, Plan};
use legal_steps::Past;
use one_history::Start;
use one_history::board::{Board, View};
use std::alloc::{AllocError, Allocator};
use std::snapshot::Snapshot;

/// Writes the words of the edges.
fn write_edges<A: Allocator>(plan: &Plan<A>, there: &[EdgeWord], words: &mut Vec<u64, A>)
    requires wide { length words.old.items ≡ word_count plan.now }
    requires one_each { length there.now ≡ length (edges plan.now) }
    ensures { AreEdgeWords plan.now there.now (length (edges plan.now)) words.new.items }
{
    for edge in 0..plan.edges() {
        let word = there[edge as usize].pack();
        words[edge_place(EdgeNo(edge))] = word;
    }
}

/// Writes the words of the phases.
fn write_phases<A: Allocator>(
    plan: &Plan<A>,
    there: &[EdgeWord],
    known: &[JobKnowledge<A>],
    words: &mut Vec<u64, A>,
)
    requires edges { AreEdgeWords plan.now there.now (length (edges plan.now)) words.old.items }
    requires one_each { length known.now ≡ length plan.now.jobs }
    requires few { (j : ℕ) (k : JobKnowledge A) → slice_get known.now j ≡ Some k → k.phase.session < 2 ^ 24 }
    ensures { AreWordsOf plan.now there.now known.now (length plan.now.jobs) words.new.items }
{
    for job in 0..plan.jobs() {
        let place = phase_place(plan, JobNo(job as u8));
        words[place] = packed_phase(known[job].phase);
    }
}

/// The words of edges and phases.
fn words_of<A: Allocator + Copy>(
    alloc: A,
    plan: &Plan<A>,
    there: &[EdgeWord],
    known: &[JobKnowledge<A>],
) -> Result<Vec<u64, A>, AllocError>
    requires edges { length there.now ≡ length (edges plan.now) }
    requires jobs { length known.now ≡ length plan.now.jobs }
    requires few { (j : ℕ) (k : JobKnowledge A) → slice_get known.now j ≡ Some k → k.phase.session < 2 ^ 24 }
    ensures { IfOk result (λ v. AreWordsOf plan.now there.now known.now (length plan.now.jobs) v.items) }
{
    let mut words = Vec::from_elem(alloc, 0u64, word_count(plan))?;
    write_edges(plan, there, &mut words);
    write_phases(plan, there, known, &mut words);
    Ok(words)
}

fn copied<A: Allocator + Copy>(
    alloc: A,
    knowledge: &JobKnowledge<A>,
) -> Result<JobKnowledge<A>, AllocError>
    ensures { IfOk result (IsSameKnowledge knowledge.now) }
{
    let fork_marks = Vec::from_slice(alloc, knowledge.fork_marks.as_slice())?;
    let bottle_marks = Vec::from_slice(alloc, knowledge.bottle_marks.as_slice())?;
    let seen = Vec::from_slice(alloc, knowledge.seen.as_slice())?;
    Ok(JobKnowledge {
        phase: knowledge.phase,
        fork_marks,
        bottle_marks,
        seen,
        counts: knowledge.counts,
    })
}

/// A desk for each job, which knows this.
fn deal_known<A: Allocator + Copy>(
    alloc: A,
    table: &Board<A>,
    keeper: &mut Seat<InstrumentLog<A>, View>,
    plan: &Plan<A>,
    known: &[JobKnowledge<A>],
) -> Result<Vec<Desk<A>, A>, AllocError>
    requires table { (table.now.shared.key.plan.value ≡ plan.now) × (keeper.old.table_id ≡ table.now.shared.table_id)
        × (table.now.shared.table_id.words ≡ word_count plan.now) }
    requires past { IsHistory plan.now table.now.shared.key.past.events }
    requires left { keeper.old.me ≡ (first_view plan.now table.now.shared.key.past.events, []) }
    requires one_each { length known.now ≡ length plan.now.jobs }
    requires known { AllKnownAfter plan.now table.now.shared.key.past.events known.now }
    ensures { IfOk result (λ v. v.items ≡ desks_after keeper.old.table_id plan.now table.now.shared.key.past.events (length plan.now.jobs)) }
{
    let mut desks = Vec::with_capacity(alloc, plan.jobs())?;
    for job in 0..plan.jobs() {
        let knowledge = copied(alloc, &known[job])?;
        let desk = next_desk(alloc, table, keeper, plan, job, knowledge)?;
        desks.push(desk)?;
    }
    Ok(desks)
}

/// A bench that stands in the state after the past, with its desks.
fn set_up<'p, A: Allocator + Copy>(
    alloc: A,
    plan: &'p Plan<A>,
    past: Past,
    there: &[EdgeWord],
    known: &[JobKnowledge<A>],
    logs: Vec<InstrumentLog<A>, A>,
) -> Result<(Bench<'p, A>, Vec<Desk<A>, A>), AllocError>
    requires { StandsAfter plan.now past.events there.now known.now logs.items }
    ensures { IfOk result (λ r. (r.0.plan ≡ plan.now) × (r.1.items ≡ desks_after r.0.table plan.now past.events (length plan.now.jobs))) }
{
    // A call for its clause alone: that the plan is well formed, which the rule of the table asks for.
    let _ = plan.jobs();
    let words = words_of(alloc, plan, there, known)?;
    let start = Start {
        plan: Snapshot::of(plan),
        past,
    };
    let made = Table::new(alloc, words.as_slice(), logs, &start);
    let Ok((table, mut keeper)) = made else {
        return Err(AllocError);
    };
    let desks = deal_known(alloc, &table, &mut keeper, plan, known)?;
    let bench = Bench { table, plan };
    Ok((bench, desks))
}

impl<'p, A: Allocator + Copy> Bench<'p, A> {
    /// A bench for the plan, in the state after the events of the past, and a desk for each job, in ascending order: each with what its job
    /// knows by its own events in it. So a run goes on where it was left. The edges and the logs are by number, and so is what each job knows.
    pub fn open_at(
        alloc: A,
        plan: &'p Plan<A>,
        past: Past,
        there: &[EdgeWord],
        known: &[JobKnowledge<A>],
        logs: Vec<InstrumentLog<A>, A>,
    ) -> Result<(Bench<'p, A>, Vec<Desk<A>, A>), OpenError>
        requires { StandsAfter plan.now past.events there.now known.now logs.items }
        ensures { IfOk result (λ r. (r.0.plan ≡ plan.now) × (r.1.items ≡ desks_after r.0.table plan.now past.events (length plan.now.jobs))) }
    {
        match set_up(alloc, plan, past, there, known, logs) {
            Ok(made) => Ok(made),
            Err(_) => Err(OpenError::NoMemory),
        }
    }
}
