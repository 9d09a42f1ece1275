//! Closing a bench.
ghost use Rattle.std.specs.Prelude.{◌≡◌, ◌↔◌, ◌<◌, ◌+◌, ◌∷◌, [], length, OnOk, IfOk, IfErr};
ghost use Rattle.turns.specs.Lists.{Each};
ghost use Rattle.one_history.specs.Seating.{nothing};
ghost use Rattle.edge_rule.specs.DeskView.{Owns};
ghost use Rattle.edge_rule.specs.Company.{Distinct, jobs_of};
ghost use Rattle.legal_steps.specs.Counting.{no_counts, counts_of};
ghost use Rattle.edge_rule.specs.Ending.{gathered, HasAll, RestsInGroups, IsEnd, AreCounted};

use crate::bench::Bench;
use crate::closed::Closed;
use crate::desk::Desk;
use crate::refusals::{CloseCause, CloseRefused};
use crate::words::{SOME_WORD, job_number};
use atomic_table::Seat;
use instrument_log::InstrumentLog;
use legal_steps::{Counts, NO_COUNTS};
use one_history::board::{Board, Enters, Notes, View};
use std::alloc::{AllocError, Allocator};

/// The counts of each job, by the desks.
fn counts_by_job<A: Allocator>(
    alloc: A,
    desks: &[Desk<A>],
    jobs: usize,
) -> Result<Vec<Counts, A>, AllocError>
    requires inside { Each (λ d. length d.plan.jobs ≡ jobs) desks.now }
    requires once { Distinct (jobs_of desks.now) }
    ensures { IfOk result (λ counts. (length counts.items ≡ jobs) × AreCounted counts.items desks.now) }
{
    let mut counts = Vec::from_elem(alloc, NO_COUNTS, jobs)?;
    for desk in desks {
        let place = job_number(desk.job());
        counts[place] = desk.counts();
    }
    Ok(counts)
}

/// The keeper takes over all hands.
fn gather<A: Allocator>(
    table: &Board<A>,
    keeper: &mut Seat<InstrumentLog<A>, View>,
    mut desks: Vec<Desk<A>, A>,
)
    requires table { (keeper.old.table_id ≡ table.now.shared.table_id) × (0 < table.now.shared.table_id.words) }
    requires empty { keeper.old.me ≡ (nothing, []) }
    requires own { Each (λ d. d.table ≡ table.now.shared.table_id) desks.items }
    ensures keeper { (keeper.new.table_id ≡ keeper.old.table_id) × (keeper.new.me ≡ (gathered desks.items, [])) }
    ensures rests { Each RestsInGroups desks.items }
{
    while let Some(desk) = desks.pop() {
        let Desk { seat, .. } = desk;
        table.shared.join_seat::<Notes>(keeper, seat);
    }
}

/// Takes the bench apart. Each job has one desk here.
fn taken_apart<'p, A: Allocator>(
    bench: Bench<'p, A>,
    desks: Vec<Desk<A>, A>,
    counts: Vec<Counts, A>,
) -> Closed<'p, A>
    requires own { Each (Owns bench) desks.items }
    requires all { HasAll bench.plan desks.items }
    requires counts { (length counts.items ≡ length bench.plan.jobs) × AreCounted counts.items desks.items }
    ensures { IsEnd bench.entry.plan desks.items result }
{
    let Bench { table, plan } = bench;
    // A seat comes to the table only by a step; what this one reads doesn't matter.
    let (_, mut keeper) = table.shared.load_new_seat::<Enters>(SOME_WORD);
    gather(&table, &mut keeper, desks);
    Closed {
        left: table.close_with(keeper),
        plan,
        counts,
    }
}

impl<'p, A: Allocator> Bench<'p, A> {
    /// Takes the bench apart, if every desk of it is there exactly once. Otherwise, and if there is no memory, the
    /// bench and all desks come back as they were. The order of the desks doesn't matter.
    pub fn close(
        self,
        alloc: A,
        desks: Vec<Desk<A>, A>,
    ) -> Result<Closed<'p, A>, CloseRefused<'p, A>>
        requires own { Each (Owns self) desks.items }
        ensures ok { IfOk result (λ closed. HasAll self.entry.plan desks.items × IsEnd self.entry.plan desks.items closed) }
        ensures cause { IfErr result (λ refused. (refused.cause ≡ CloseCause.NotEveryDesk) ↔ (HasAll self.entry.plan desks.items → ⊥)) }
        ensures back { IfErr result (λ refused. (refused.bench ≡ self.entry) × (refused.desks.items ≡ desks.items)) }
    {
        if !self.has_all(desks.as_slice()) {
            return Err(CloseRefused {
                cause: CloseCause::NotEveryDesk,
                bench: self,
                desks,
            });
        }
        let Ok(counts) = counts_by_job(alloc, desks.as_slice(), self.plan.jobs()) else {
            return Err(CloseRefused {
                cause: CloseCause::NoMemory,
                bench: self,
                desks,
            });
        };
        Ok(taken_apart(self, desks, counts))
    }
}
