//! Two desks meet.
ghost use Rattle.std.specs.Prelude.{◌≡◌, ◌≢◌, ◌<◌, ◌+◌, ◌∷◌, [], length};
ghost use Rattle.legal_steps.specs.declared.event.Event.TheVariants.{Glance};
ghost use Rattle.edge_word.specs.Phases.{phase_word_of, FitsPhaseWord};
ghost use Rattle.edge_rule.specs.DeskView.{Owns, Adds};
ghost use Rattle.turns.specs.History.{events_by};
ghost use Rattle.turns.specs.Lists.{StartsWith};
ghost use Rattle.one_history.specs.Rule.{phase_place as place_of};
ghost use Rattle.one_history.specs.Grow.{hand_in, IsMine, Does};
ghost use Rattle.legal_steps.specs.declared.phase.JobState.{JobState};

use crate::bench::Bench;
use crate::desk::Desk;
use crate::lent::lend;
use crate::words::{phase_place, unpacked_phase};
use atomic_table::Seat;
use edge_word::PhaseWord;
use instrument_log::InstrumentLog;
use lab_plan::JobNo;
use one_history::board::{Board, Glances, Returns, View};
use std::alloc::Allocator;

/// The other's hand is lent to `me` for one load of the word, which is the other's phase word.
fn glance_at<A: Allocator>(
    table: &Board<A>,
    me: &mut Seat<InstrumentLog<A>, View>,
    other: &mut Seat<InstrumentLog<A>, View>,
    word: usize,
) -> u64
    requires table { (me.old.table_id ≡ table.now.shared.table_id) × (other.old.table_id ≡ table.now.shared.table_id)
        × (word < table.now.shared.table_id.words) }
    requires plan { ((hand_in me.old.me.0).plan ≡ table.now.shared.key.plan.value)
        × ((hand_in me.old.me.0).job < length table.now.shared.key.plan.value.jobs) }
    requires word { (word ≡ place_of table.now.shared.key.plan.value (hand_in other.old.me.0).job)
        × ((hand_in other.old.me.0).job < length table.now.shared.key.plan.value.jobs) }
    requires alone { IsMine me.old.me.0 × (me.old.me.0.told ≡ []) × (me.old.me.1 ≡ []) }
    requires other_alone { IsMine other.old.me.0 × (other.old.me.0.told ≡ []) × (other.old.me.1 ≡ []) }
    requires apart { (hand_in other.old.me.0).job ≢ (hand_in me.old.me.0).job }
    ensures same { (other.new.table_id ≡ other.old.table_id) × (other.new.me ≡ other.old.me) }
    ensures seat { (me.new.table_id ≡ me.old.table_id) × (me.new.me.1 ≡ []) }
    ensures does { (x : JobState) × (result ≡ phase_word_of x) × FitsPhaseWord x
        × Does me.old.me.0 (Glance (hand_in me.old.me.0).job (hand_in other.old.me.0).job x) me.new.me.0 }
    ensures both { StartsWith me.new.me.0.front other.old.me.0.front
        × (events_by (hand_in other.old.me.0).job me.new.me.0.front ≡ (hand_in other.old.me.0).deeds) }
{
    // With the other's hand the history that the load sees has the other's record whole; nobody acts by it meanwhile.
    lend(table, me, other);
    let found = table.shared.load::<Glances>(me, word);
    let back = table.shared.split_seat::<Returns>(me);
    table.shared.join_seat::<Returns>(other, back);
    found
}

/// Looks at the other job's phase. Afterwards the history that `me` has seen begins with both, and has both records whole.
pub fn meet<A: Allocator>(bench: &Bench<A>, me: &mut Desk<A>, other: &mut Desk<A>) -> PhaseWord
    requires own { Owns bench.now me.old × Owns bench.now other.old }
    requires apart { other.old.job ≢ me.old.job }
    ensures same { other.new ≡ other.old }
    ensures adds { Adds me.old (Glance me.old.job other.old.job result ∷ []) me.new }
    ensures both { StartsWith me.new.front other.old.front × (events_by other.old.job me.new.front ≡ other.old.deeds) }
{
    let word = phase_place(bench.plan, other.job);
    unpacked_phase(glance_at(&bench.table, &mut me.seat, &mut other.seat, word))
}

/// Looks at another job's phase.
pub fn glance<A: Allocator>(bench: &Bench<A>, desk: &mut Desk<A>, other: JobNo) -> PhaseWord
    requires own { Owns bench.now desk.old }
    requires other { (other < length desk.old.plan.jobs) × (other ≢ desk.old.job) }
    ensures { Adds desk.old (Glance desk.old.job other result ∷ []) desk.new }
{
    let word = phase_place(bench.plan, other);
    unpacked_phase(bench.table.shared.load::<Glances>(&mut desk.seat, word))
}
