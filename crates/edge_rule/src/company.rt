//! All desks of a slice meet.
ghost use Rattle.std.specs.Prelude.{◌≡◌, ◌≢◌, ◌<◌, ◌+◌, ◌∷◌, [], ◌++◌, length, map};
ghost use Rattle.edge_rule.specs.DeskView.{Owns};
ghost use Rattle.turns.specs.History.{events_by};
ghost use Rattle.one_history.specs.Grow.{hand_in, IsLed, Grows};
ghost use Rattle.edge_rule.specs.Company.{Met, Distinct, jobs_of};
ghost use Rattle.turns.specs.Lists.{Each, StartsWith};

use crate::bench::Bench;
use crate::desk::Desk;
use crate::lent::{give_back, lend};
use crate::words::SOME_WORD;
use atomic_table::Seat;
use instrument_log::InstrumentLog;
use one_history::board::{Board, Notices, View};
use std::alloc::Allocator;

/// All hands of the others are lent to `me` for one load, which is no event.
fn hear<A: Allocator>(
    table: &Board<A>,
    me: &mut Seat<InstrumentLog<A>, View>,
    others: &mut [Desk<A>],
)
    requires table { (me.old.table_id ≡ table.now.shared.table_id) × (0 < table.now.shared.table_id.words) }
    requires own { Each (λ d. d.table ≡ table.now.shared.table_id) others.old }
    requires led { IsLed me.old.me.0 × (me.old.me.1 ≡ []) }
    requires apart { Each (λ d. Each (λ y. y.job ≢ d.job) me.old.me.0.hands) others.old × Distinct (jobs_of others.old) }
    ensures same { others.new ≡ others.old }
    ensures seat { (me.new.table_id ≡ me.old.table_id) × (me.new.me.1 ≡ []) }
    ensures grows { Grows me.old.me.0 [] me.new.me.0 }
    ensures starts { Each (λ d. StartsWith me.new.me.0.front d.front) others.old }
    ensures wholes { Each (λ d. events_by d.job me.new.me.0.front ≡ d.deeds) others.old }
{
    if others.is_empty() {
        // The load is there for the rule alone: what a seat has heard of becomes what it has seen only in a step.
        table.shared.load::<Notices>(me, SOME_WORD);
        return;
    }
    let (front, later) = others.split_at_mut(1);
    let other = &mut front[0];
    lend(table, me, &mut other.seat);
    hear(table, me, later);
    give_back(table, me, &mut other.seat);
}

/// The first desk hears of all others: its front has every record whole.
pub fn meet_all<A: Allocator>(bench: &Bench<A>, desks: &mut [Desk<A>])
    requires own { Each (Owns bench.now) desks.old }
    requires apart { Distinct (jobs_of desks.old) }
    ensures { Met desks.old desks.new }
{
    if desks.is_empty() {
        return;
    }
    let (front, others) = desks.split_at_mut(1);
    let first = &mut front[0];
    hear(&bench.table, &mut first.seat, others);
}
