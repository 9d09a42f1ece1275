//! What a desk has seen goes to another desk.
ghost use Rattle.std.specs.Prelude.{◌≡◌};
ghost use Rattle.turns.specs.History.{IsHistory};
ghost use Rattle.edge_rule.specs.DeskView.{Owns};
ghost use Rattle.edge_rule.specs.Telling.{Heard};

use crate::bench::Bench;
use crate::desk::Desk;
use crate::words::SOME_WORD;
use atomic_table::Seat;
use instrument_log::InstrumentLog;
use one_history::board::{Notes, Notices, View};
use std::alloc::{Allocator, Global};
use std::marker::Model;

/// What a desk has seen of the history. It acts for no job.
#[derive(Drop)]
pub struct News<A: Allocator = Global> {
    pub(crate) seat: Seat<InstrumentLog<A>, View>,
}

impl<A: Allocator> Model for News<A> {
    ghost use Rattle.edge_rule.specs.Telling.{NewsView};

    ghost Value = { NewsView };

    ghost use Rattle.edge_rule.specs.NewsInside.{news_of, IsNews};

    ghost view = { news_of };

    ghost invariant = { IsNews };
}

/// What the desk has seen.
pub fn tell<A: Allocator>(bench: &Bench<A>, desk: &mut Desk<A>) -> News<A>
    requires own { Owns bench.now desk.old }
    ensures same { desk.new ≡ desk.old }
    ensures news { (result.table ≡ bench.now.table) × (result.front ≡ desk.old.front) }
    ensures legal { IsHistory bench.now.plan result.front }
{
    News {
        seat: bench.table.shared.split_seat::<Notes>(&mut desk.seat),
    }
}

/// The desk hears of what another has seen. Nothing is done.
pub fn heed<A: Allocator>(bench: &Bench<A>, desk: &mut Desk<A>, news: News<A>)
    requires own { Owns bench.now desk.old }
    requires news { news.table ≡ bench.now.table }
    ensures { Heard desk.old news.front desk.new }
{
    let News { seat } = news;
    bench.table.shared.join_seat::<Notes>(&mut desk.seat, seat);
    // The load is there for the rule alone: what a seat has heard of becomes what it has seen only in a step.
    bench
        .table
        .shared
        .load::<Notices>(&mut desk.seat, SOME_WORD);
}
