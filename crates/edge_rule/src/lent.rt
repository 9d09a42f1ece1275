//! The hands of one seat are lent to another, and the last that was lent goes back.
ghost use Rattle.std.specs.Prelude.{◌≡◌, ◌<◌};
ghost use Rattle.one_history.specs.Grow.{IsMine};
ghost use Rattle.one_history.specs.Seating.{glued, lent_left, backed_left, backed_right, taken_back};
ghost use Rattle.edge_rule.specs.Lending.{HasLast};

use atomic_table::Seat;
use instrument_log::InstrumentLog;
use one_history::board::{Backs, Board, Lends, Notes, Returns, View};
use std::alloc::Allocator;

/// The hand of `other` is lent to `me`, which is told what that one has seen.
pub(crate) fn lend<A: Allocator>(
    table: &Board<A>,
    me: &mut Seat<InstrumentLog<A>, View>,
    other: &mut Seat<InstrumentLog<A>, View>,
)
    requires table { (me.old.table_id ≡ table.now.shared.table_id) × (other.old.table_id ≡ table.now.shared.table_id)
        × (0 < table.now.shared.table_id.words) }
    requires mine { IsMine other.old.me.0 }
    ensures me { (me.new.table_id ≡ me.old.table_id) × (me.new.me.0 ≡ glued me.old.me.0 other.old.me.0) × (me.new.me.1 ≡ me.old.me.1) }
    ensures other { (other.new.table_id ≡ other.old.table_id) × (other.new.me ≡ (lent_left other.old.me.0, other.old.me.1)) }
{
    let lent = table.shared.split_seat::<Lends>(other);
    table.shared.join_seat::<Notes>(me, lent);
}

/// The hand that was lent last goes back to `other`.
pub(crate) fn give_back<A: Allocator>(
    table: &Board<A>,
    me: &mut Seat<InstrumentLog<A>, View>,
    other: &mut Seat<InstrumentLog<A>, View>,
)
    requires table { (me.old.table_id ≡ table.now.shared.table_id) × (other.old.table_id ≡ table.now.shared.table_id)
        × (0 < table.now.shared.table_id.words) }
    requires lent { HasLast me.old.me.0 }
    ensures me { (me.new.table_id ≡ me.old.table_id) × (me.new.me.0 ≡ backed_left me.old.me.0) × (me.new.me.1 ≡ me.old.me.1) }
    ensures other { (other.new.table_id ≡ other.old.table_id)
        × (other.new.me ≡ (taken_back other.old.me.0 (backed_right me.old.me.0), other.old.me.1)) }
{
    let back = table.shared.split_seat::<Backs>(me);
    table.shared.join_seat::<Returns>(other, back);
}
