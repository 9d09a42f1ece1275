//! One round: one turn of each desk, in the order of the slice.
ghost use Rattle.std.specs.Prelude.{◌≡◌, ◌<◌, ◌+◌, length, take, drop, slice_index_or};
ghost use Rattle.edge_rule.specs.Company.{jobs_of};
ghost use Rattle.rounds.specs.Company.{AllOf, IsWhole, Spread};
ghost use Rattle.rounds.specs.Rounds.{Plays, Round, is_idle, players_of, no_player};

use edge_rule::{Bench, Desk, News, heed, tell};
use session_layer::{Turned, turn};
use std::alloc::Allocator;

/// One turn of the desk at the place, which first hears what was seen so far. Answers too what was seen then.
/// Whether the others did nothing meanwhile is known later, when all meet.
fn turn_at<A: Allocator>(
    bench: &Bench<A>,
    desks: &mut [Desk<A>],
    place: usize,
    news: News<A>,
) -> (Turned, News<A>)
    requires spread { Spread bench.now news.front desks.old }
    requires news { news.table ≡ bench.now.table }
    requires all { AllOf bench.now.plan (jobs_of desks.old) }
    requires place { place < length desks.old }
    ensures spread { Spread bench.now result.1.front desks.new }
    ensures news { result.1.table ≡ bench.now.table }
    ensures jobs { jobs_of desks.new ≡ jobs_of desks.old }
    ensures before { take place (players_of desks.new) ≡ take place (players_of desks.old) }
    ensures behind { drop (place + 1) (players_of desks.new) ≡ drop (place + 1) (players_of desks.old) }
    ensures plays { IsWhole result.1.front desks.new → IsWhole news.front desks.old
        × Plays bench.now.plan (slice_index_or (players_of desks.old) place no_player) news.front result.0
        result.1.front (slice_index_or (players_of desks.new) place no_player) }
{
    let desk = &mut desks[place];
    // What the desks before it have done comes first, so that its own turn stands behind all of that in one history.
    heed(bench, desk, news);
    let turned = turn(bench, desk);
    let later = tell(bench, desk);
    (turned, later)
}

fn is_idle(turned: Turned) -> bool
    ensures { result ≡ is_idle turned }
{
    matches!(turned, Turned::Idle)
}

/// One round. Answers whether every turn was idle, and what was seen then.
pub(crate) fn round<A: Allocator>(
    bench: &Bench<A>,
    desks: &mut [Desk<A>],
    news: News<A>,
) -> (bool, News<A>)
    requires spread { Spread bench.now news.front desks.old }
    requires news { news.table ≡ bench.now.table }
    requires all { AllOf bench.now.plan (jobs_of desks.old) }
    ensures spread { Spread bench.now result.1.front desks.new }
    ensures news { result.1.table ≡ bench.now.table }
    ensures jobs { jobs_of desks.new ≡ jobs_of desks.old }
    ensures plays { IsWhole result.1.front desks.new → IsWhole news.front desks.old
        × Round bench.now.plan (players_of desks.old) result.0 news.front result.1.front (players_of desks.new) }
{
    let mut idle = true;
    let mut last = news;
    for place in 0..desks.len() {
        let (turned, later) = turn_at(bench, desks, place, last);
        last = later;
        idle &= is_idle(turned);
    }
    (idle, last)
}
